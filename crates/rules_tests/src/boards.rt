//! Boards of a few pieces near the origin.

ghost use Rattle.std.specs.Prelude.{◌≡◌};

use hive_model::{Board, Colour, Kind, Piece, Place};
use stack_board::PlainBoard;
use std::alloc::{AllocError, Global};

/// A board with these pieces, each at a place near the origin, put one after another.
pub fn board_of(
    alloc: Global,
    pieces: &[(Colour, Kind, u8, i32, i32)],
) -> Result<PlainBoard, AllocError> {
    let mut board = PlainBoard::new(alloc)?;
    for (colour, kind, number, q, r) in pieces {
        if let Some(piece) = Piece::new(*colour, *kind, *number)
            && -9 <= *q
            && *q <= 9
            && -9 <= *r
            && *r <= 9
            && board.spot(piece).is_none()
        {
            board.put(piece, Place { q: *q, r: *r });
        }
    }
    Ok(board)
}

/// The board with the first pieces on these places, in turn.
pub fn board_on(alloc: Global, places: &[(i32, i32)]) -> Result<PlainBoard, AllocError> {
    let mut board = PlainBoard::new(alloc)?;
    for (x, (q, r)) in places.iter().enumerate() {
        if x < 28 && -9 <= *q && *q <= 9 && -9 <= *r && *r <= 9 {
            let piece = Piece::at(x as u8);
            if board.spot(piece).is_none() {
                board.put(piece, Place { q: *q, r: *r });
            }
        }
    }
    Ok(board)
}

/// A copy of it.
pub fn again(rest: &Option<Piece>) -> Option<Piece>
    ensures { result ≡ rest.now }
{
    *rest
}
