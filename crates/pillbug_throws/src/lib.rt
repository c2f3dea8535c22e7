//! Throws: a pillbug, or a mosquito that touches one, lifts a neighbouring piece over itself to
//! another neighbouring place.
#![tactic(auto)]

mod landing;
mod throwers;

pub use landing::{mark_beside, may_be_thrown, throws};
pub use throwers::{may_throw, throwing_spot};
