//! Tests that the side to move cannot win, or cannot lose, with its next move; they look around the
//! queens and list no moves.
#![tactic(auto)]

mod far;
mod laws;

pub use far::{is_far_from_loss, is_far_from_win};
pub use laws::{far_positions_are_not_won, safe_positions_are_not_lost};
