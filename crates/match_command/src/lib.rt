//! A match of two programs, from their start to the two lines that report it.
#![tactic(auto)]

mod engines;
mod laws;
mod playing;
mod reads;
mod texts;

pub use laws::matches_are_done;
pub use playing::{play_match, play_match_from};
pub use reads::play_read_match;
pub use texts::{write_ending, write_number, write_shown};
