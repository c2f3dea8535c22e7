//! The command `book`: it names the move of a position that was made most often in played games.
#![tactic(auto)]

mod answering;
mod book_line;
mod laws;
mod reading;

pub use answering::book;
pub use laws::{books_are_done, written_moves_are_legal};
