//! A cup: its pairings, its games, each over links of its own, their points, and the standings.
#![tactic(auto)]

mod gate;
mod job;
mod laws;
mod pairing;
mod played;
mod points;
mod program;
mod ranking;
mod run;
mod standing;

pub use gate::{CupGate, FreeCupGate};
pub use job::CupJob;
pub use laws::points_add_up;
pub use pairing::{Pairing, pairings};
pub use played::standings_of;
pub use points::points_of;
pub use program::Program;
pub use ranking::standings;
pub use run::run_cup;
pub use standing::{Standing, StandingList};
