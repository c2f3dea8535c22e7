//! What a tournament asks of the outside: a clock for each of its games, and what shows how far it
//! is.
#![tactic(auto)]

mod clocks;
mod progress;

pub use clocks::{Clocks, StepClocks};
pub use progress::Progress;
