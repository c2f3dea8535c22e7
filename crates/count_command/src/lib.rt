//! The command `count` (perft): how many lists of legal moves a game can go on with.
#![tactic(auto)]

mod counts;
mod laws;
mod parts;
mod shared;

pub use counts::count;
pub use laws::counts_are_done;
pub use parts::split;
pub use shared::count_shared;
