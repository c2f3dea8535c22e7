//! The head of a tournament's output: a line that says which tournament it is.
#![tactic(auto)]

mod head;
mod openings;
mod parts;
mod topic;

pub use head::{head_of, head_text, other_topic};
pub use openings::openings_sum;
pub use parts::{HeadPart, HeadParts};
pub use topic::Topic;
