//! The commands `solve` and `verify`: they write a proof that a win can or cannot be forced, and
//! check such proofs.
#![tactic(auto)]

mod fields;
mod head;
mod laws;
mod solving;
mod texts;
mod verifying;

pub use laws::{
    accepted_answers_are_true, solutions_are_accepted, solved_answers_are_accepted,
    solves_are_done, verified_answers_are_true, verifies_are_done,
};
pub use solving::solve;
pub use verifying::verify;
