//! What tests need for a run in memory: sources, sinks, links and starters of programs made of
//! slices, words as owned texts, and the result of a run.
#![tactic(auto)]

mod owned;
mod played;
mod programs;
mod settings;

pub use owned::owned_words;
pub use played::Played;
pub use programs::{links_of, links_saying, spawner_of};
pub use settings::{CUTS, MemSetting};
