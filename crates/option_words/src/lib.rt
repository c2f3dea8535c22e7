//! The options of a command on the command line, parsed with `clap`.
#![tactic(auto)]

mod given;
mod option;
mod parse;

pub use given::GivenOptions;
pub use option::{one_option, options_of};
