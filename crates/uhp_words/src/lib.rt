//! Words of the Universal Hive Protocol (UHP): which command a line is, and the lines of a reply.
#![tactic(auto)]

mod command;
mod read;
mod reply;
mod span;
mod verb;
mod words;

pub use command::{Command, CommandFault};
pub use read::read_command;
pub use reply::write_reply;
pub use span::{Span, part};
pub use verb::Verb;
