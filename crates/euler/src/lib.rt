//! Euler's number of a board, and the test of a separating place that it allows.
//!
//! It is the number of occupied places, minus the number of pairs of neighbours among them, plus
//! the number of triangles of them. That is the number of separate parts of the board minus the
//! number of its holes. A piece on an empty place adds 1, minus the arcs that its occupied
//! neighbours form. One hive without holes has the number 1. Then a place is separating (an
//! articulation point) exactly if its occupied neighbours form two or more arcs, and no walk over
//! the board is needed.
#![tactic(auto)]

mod laws;
mod number;

pub use laws::{
    arcs_tell_cuts, few_arcs_are_no_cut, lifts_change_the_number, many_arcs_are_a_cut,
    one_hive_is_one_part, parts_bound_the_number, puts_change_the_number,
};
pub use number::{euler_number, is_separating_by_arcs, is_separating_on, told_by_arcs};
