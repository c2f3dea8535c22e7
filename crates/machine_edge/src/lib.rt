//! The outside as the machine provides it: its clock, its streams, and programs of the system.
//!
//! They implement the traits of `io_edge`. Contracts cannot observe their bytes.
#![tactic(auto)]

mod engines;
mod games;
mod machine_clock;
mod marks;
mod patience;
mod programs;
mod streams;

pub use games::begins_game;
pub use machine_clock::MachineClock;
pub use programs::Programs;
pub use streams::Counted;
