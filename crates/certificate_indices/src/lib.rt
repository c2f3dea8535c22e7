//! Writes the least indices, one a line, that show a claim of what a position is worth.
//!
//! It keeps no tree: it asks again for values whenever it needs an index.
#![tactic(auto)]

mod judge;
mod writing;

pub use judge::Judge;
pub use writing::{write_child, write_indices, write_moves};
