//! The claim of a certificate.

use hive_model::Move;

/// The claimed best move of a position at a depth, and the claimed value.
#[derive(Clone, Copy, Debug, PartialEq, Eq)]
pub struct Claim {
    pub depth: u32,
    pub best: Move,
    pub value: i32,
}
