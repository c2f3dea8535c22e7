//! What a game knows before each of its moves.

use crate::lookahead::Lookahead;
use cut_keeper::CutKeeper;

/// What a game knew before a move: its keeper, and what was found about the board.
#[derive(Drop)]
pub(crate) struct Before {
    pub(crate) keeper: CutKeeper,
    pub(crate) ahead: Lookahead,
}
