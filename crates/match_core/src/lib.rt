//! The referee: what has to be done next in a match of two engines, and how each event changes the
//! match.
#![tactic(auto)]

mod laws;
mod line_text;
mod lines;
mod referee;
mod setup;
mod stage;
mod texts;
mod verdict;

pub use laws::{
    matches_are_fair, matches_are_judged, matches_are_of_their_lines, matches_begin, matches_end,
    matches_near_their_end, matches_tell_lates, plain_matches_ask,
};
pub use line_text::copy_line;
pub use referee::Referee;
pub use setup::{Level, Setup};
pub use stage::{Act, Event, Stage, Task};
pub use verdict::{Cause, Verdict};
