//! Counts of lists of legal moves, shared by up to 16 workers. Legal moves after which positions
//! are alike form one class, and each class is counted once.
#![tactic(auto)]

mod classes;
mod copies;
mod dealing;
mod team;
mod worker;

pub use classes::{MoveClass, classes_of};
pub use team::{CountTeam, room_for};
