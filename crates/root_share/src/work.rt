//! The work at a root, and its children.

use crate::word::Word;
use hive_model::{Game, Move, MoveStack};

/// What the workers share: the word with their bound, the gate and the root's list of moves. They
/// also share the depth of the root, and the number of parts into which the moves are divided.
#[derive(Drop)]
pub struct RootWork<'a, G: Game, T> {
    pub word: &'a Word<G>,
    pub gate: &'a T,
    pub root: &'a MoveStack,
    pub depth: u32,
    pub parts: u32,
}

/// A child of the root: a move, and its index on the root's list.
#[derive(Drop)]
pub struct Child {
    pub place: u32,
    pub m: Move,
}
