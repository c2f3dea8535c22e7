//! The command that reads the openings of a tournament, and how games of it ended before, and plays
//! it.
#![tactic(auto)]

mod format;
mod heads;
mod intake;
mod lines;
mod phase;
mod playing;
mod reading;
mod refused;

pub use format::Format;
pub use playing::play_read_tournament;
