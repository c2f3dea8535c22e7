//! The reasons for which a line is not read as a game.

use move_text::MoveFault;
use thiserror::Error;

/// Why a line is not read as a game. Each fault but `Memory` is reported exactly if no earlier one
/// holds.
#[derive(Clone, Copy, Debug, PartialEq, Eq, Error)]
pub enum GameFault {
    /// The first part that is absent or malformed. The parts between the semicolons are counted
    /// from 1: the type, the state, the turn, and then the moves, none of which may be empty.
    #[error("part {part} is absent or not of its form")]
    Malformed { part: u32 },
    /// There are more than 5,000 moves.
    #[error("more than 5000 moves")]
    TooLong,
    /// The text of the first move that is refused, counted from 1, does not denote a move on its
    /// board.
    #[error("move {number}: {fault}")]
    BadMove { number: u32, fault: MoveFault },
    /// The first move that is refused, counted from 1, is not legal.
    #[error("move {number} is not legal")]
    IllegalMove { number: u32 },
    /// The declared state is not that of the game.
    #[error("the declared state is not that of the game")]
    OtherState,
    /// The declared turn is not that of the game.
    #[error("the declared turn is not that of the game")]
    OtherTurn,
    #[error("out of memory")]
    Memory,
}
