//! What every search rests on: laws of minimax and of the number of plays, the alpha-beta window,
//! and the value of a leaf.
#![tactic(auto)]

mod laws;
mod leaf;
mod window;

pub use laws::{best_is_first_greatest, cost_falls, counts_go_deeper, values_go_deeper};
pub use leaf::{end_value, leaf_value};
pub use window::Window;
