//! The keeper of cut places: which pieces stand on separating places (articulation points), updated
//! as a board that is one hive changes.
//!
//! A keeper stores Euler's number of the board, which is the number of its separate parts minus its
//! holes. When a place comes to be occupied or empty, the number changes by 1 minus the arcs of
//! occupied neighbours around it. The keeper also stores a mark for each piece. The mark of a piece
//! on top of a place is set if the place is separating.
//!
//! On one hive with the number 1, which has no hole, a place is separating exactly if its occupied
//! neighbours form two or more arcs. Then no walk is made. While the number is another, a change
//! beside one arc of pieces examines the places within it. Any other change is followed by one
//! walk. To undo a change, go back to the keeper from before it.
#![tactic(auto)]

mod examining;
mod keeper;
mod rings;
mod tops;
mod updating;

pub use keeper::{CutKeeper, KeptCuts, added_uncounted, removed_uncounted};
pub use rings::{has_bit, is_suspect, only_in};
