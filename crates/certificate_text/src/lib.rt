//! Certificates as texts: the head, and items such as indices, one a line.
#![tactic(auto)]

mod fields;
mod head;
mod lines;
mod writing;

pub use fields::{Field, NumberField, behind, number_at};
pub use head::{Head, HeadFault, read_field, read_game_line, read_head};
pub use lines::{IndexLine, LineForm, LineIndices, LineItems};
pub use writing::{index_line, push_line, push_move, push_number, write_head};
