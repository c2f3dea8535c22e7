//! The games of a tournament, played in waves and told as they come, and the standings.
#![tactic(auto)]

mod closing;
mod job;
mod laws;
mod openings;
mod outcome;
mod playing;
mod readback;
mod running;
mod starting;
mod texts;
mod tournament;
mod wave;
mod wave_text;

pub use laws::ends_are_read_back;
pub use openings::opening_of;
pub use playing::play_tournament;
pub use readback::end_of_text;
pub use tournament::Tournament;
