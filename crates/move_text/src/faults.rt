//! The reasons for which a text is not read as a move.

use hive_model::Piece;
use thiserror::Error;

/// Why a text is not read as a move. Each fault is reported only if no earlier one holds.
#[derive(Clone, Copy, Debug, PartialEq, Eq, Error)]
pub enum MoveFault {
    /// The text is not a move text, or it is a piece alone on a board that is not empty. The offset
    /// is the length of the longest prefix of the text with which some move text begins. For a
    /// piece alone it is the length of the text.
    #[error("no move text: it ends or goes wrong behind {at} bytes")]
    NotAMove { at: u32 },
    /// The moving piece is not of the game type.
    #[error("the game type does not have the moving piece")]
    NoSuchPiece,
    /// The piece on or beside which the move ends is not on the board without the moving piece.
    #[error("the piece that the move refers to is not in play")]
    NotInPlay { piece: Piece },
}
