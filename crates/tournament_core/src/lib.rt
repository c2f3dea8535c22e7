//! A tournament: its pairings, with their openings and colours, and the standings.
#![tactic(auto)]

mod fixtures;
mod grid;
mod laws;
mod pairs;
mod plan;
mod ranking;
mod standing;
mod sums;
mod tally;

pub use fixtures::{Fixture, GameEnd};
pub use laws::{equally_often, order_is_free, points_add_up};
pub use plan::Plan;
pub use ranking::standings;
pub use standing::{Standing, StandingList};
pub use tally::Tally;
