//! How the run of a command ends, what it reads of its input, and the run of a command that answers
//! one game.
#![tactic(auto)]

mod asking;
mod endings;
mod no_game;
mod reasons;
mod status;

pub use asking::{first_game, is_over, read_one_game};
pub use endings::{end_with, tell_none};
pub use no_game::NoGame;
pub use reasons::{line_for, numbered, reason_of};
pub use status::Status;
