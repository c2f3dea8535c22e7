//! Minimax values and counts of lists of legal moves (perft), as they are defined: every line of
//! play is tried, without windows or bounds.
//!
//! What is known to be the same is counted once: the replies to placements on one place, and what
//! follows moves that a symmetry takes to each other. The legal moves of a position that was met
//! before are not counted again either.
#![tactic(auto)]

mod awake;
mod counts;
mod images;
mod laws;
mod move_counts;
mod replies;
mod values;

pub use counts::count_lines;
pub use laws::{
    like_placements_have_the_same_replies, rest_does_not_matter, what_is_kept_is_found,
};
pub use move_counts::MoveCounts;
pub use values::minimax;
