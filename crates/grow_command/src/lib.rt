//! The command `grow`: makes a game from a number and writes eight lines about it.
#![tactic(auto)]

mod growing;
mod laws;
mod texts;

pub use growing::grow;
pub use laws::{best_moves_are_told, grows_are_done};
