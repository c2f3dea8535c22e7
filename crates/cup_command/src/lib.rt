//! A cup of programs, from their starts to the text that reports it.
#![tactic(auto)]

mod closing;
mod laws;
mod links;
mod playing;
mod texts;

pub use laws::cups_are_done;
pub use playing::play_cup;
