//! Games on both boards compared, a game that walks away, and the moves of the bugs on the grid.

ghost use Rattle.std.specs.Prelude.{◌<◌};

mod beside;
mod futile;
mod kept;
mod rows;
mod told;
mod walk;

use hive_model::{Game, Move, Piece, Place};
use std::alloc::AllocError;

/// Plays the move, if it is legal.
fn plays_move<G: Game>(game: &mut G, m: Move) -> Result<bool, AllocError> {
    if game.plies() > 5000 {
        return Ok(false);
    }
    game.reserve(1)?;
    if !game.is_legal(m.again()) {
        return Ok(false);
    }
    game.play(m);
    Ok(true)
}

/// Plays the piece to the place, if that is legal.
fn plays<G: Game>(game: &mut G, index: u8, place: Place) -> Result<bool, AllocError>
    requires { index < 28 }
{
    plays_move(
        game,
        Move::To {
            piece: Piece::at(index),
            place,
        },
    )
}

/// Undoes the last move, if there is one.
fn takes_back<G: Game>(game: &mut G) -> bool {
    if game.plies() == 0 {
        return false;
    }
    game.undo();
    true
}
