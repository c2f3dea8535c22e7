//! The words of the command line, without the program's name, and what they ask for.
#![tactic(auto)]

mod asked;
mod audits;
mod counted;
mod cups;
mod engine_limits;
mod engines;
mod grown;
mod laws;
mod matched;
mod name;
mod numbered;
mod program;
mod replayed;
mod setup;
mod tournaments;

pub use asked::{Asked, asked_of, care_of};
pub use audits::{AuditAsked, audited_of};
pub use cups::engines_of;
pub use engine_limits::EngineLimits;
pub use laws::words_have_one_answer;
pub use matched::{Programs, programs_of};
pub use name::Name;
pub use tournaments::tournament_engines_of;
