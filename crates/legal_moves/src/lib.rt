//! The legal moves of a position, over any board that knows its cut places.
#![tactic(auto)]

mod counting;
mod listing;
mod merging;
mod pairs;
mod throws;
mod turns;
mod walks;

pub use counting::count_moves;
pub use listing::list;
pub use pairs::is_legal_move;
pub use turns::Turn;
