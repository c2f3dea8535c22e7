//! A table of what was found of positions, each entry true of every position with its key.
#![tactic(auto)]

mod entry;
mod laws;
mod table;

pub use entry::{Bound, Entry, Known};
pub use laws::one_position_is_enough;
pub use table::ValueTable;
