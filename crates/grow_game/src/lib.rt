//! The game that a number makes: SplitMix64 alone picks the legal moves.
#![tactic(auto)]

mod drawing;
mod growing;
mod laws;
mod plies;

pub use growing::{Grown, grow};
pub use laws::grown_moves_are_games;
