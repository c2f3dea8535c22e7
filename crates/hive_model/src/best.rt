//! What a search returns.

use crate::places::Move;

/// A move, and its value to the side that makes it.
#[derive(Clone, Copy, Debug, PartialEq, Eq)]
pub struct Best {
    pub best: Move,
    pub value: i32,
}

/// What a timed search did: the last depth that it completed, its budget, and the first and the
/// last reading of its clock. The budget and the readings are in milliseconds.
#[derive(Clone, Copy, Debug, PartialEq, Eq)]
pub struct Timed {
    pub depth: u32,
    pub budget: u64,
    pub started: u64,
    pub stopped: u64,
}
