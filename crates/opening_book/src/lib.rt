//! An opening book: how often each legal move of a position was made in played games.
//!
//! Positions count as one if they differ only by turning, mirroring and shifting.
#![tactic(auto)]

mod plies;
mod tally;

pub use tally::MoveTally;
