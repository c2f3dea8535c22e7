//! A game that was read.

use hive_model::{GameType, MoveList};

/// A game that was read: its type and its moves, each legal in the position before it.
#[derive(Drop)]
pub struct Parsed {
    pub game_type: GameType,
    pub moves: MoveList,
}
