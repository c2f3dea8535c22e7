//! What the machine provides for a tournament: clocks, and progress on standard error.
#![tactic(auto)]

mod hall;

pub use hall::Hall;
