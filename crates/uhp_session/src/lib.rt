//! A session: the answers to the lines of an input.
#![tactic(auto)]

mod current;
mod laws;
mod lines;
mod lists;
mod options;
mod refusals;
mod says;
mod session;
mod workers;

pub use laws::{
    best_moves_are_named, depths_serve_searches, options_change_no_answer, refusals_change_nothing,
    sessions_hold_games,
};
pub use lines::{LineIn, Reply};
pub use lists::joined_moves;
pub use session::Session;
