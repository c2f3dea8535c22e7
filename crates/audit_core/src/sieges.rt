//! The games that are sieges, and the moves that are sought there.
ghost use Rattle.std.specs.Prelude.{◌≡◌};
ghost use Rattle.hive_model.specs.Boards.{spot_of};
ghost use Rattle.hive_model.specs.Histories.{position};
ghost use Rattle.hive_model.specs.Pieces.{queen_of};
ghost use Rattle.hive_model.specs.Places.{IsWithin};
ghost use Rattle.audit_core.specs.Drawing.{
  closes_in,
  is_beside,
  is_round,
  is_siege,
  is_sought,
};

use hive_model::{Board, Colour, Dir, Game, Move, Place};

/// Whether a game is a siege, by the seed and the number of games before it.
pub(crate) fn is_siege(seed: u64, number: u64) -> bool
    ensures { result ≡ is_siege seed number }
{
    seed.wrapping_add(number) / 8 % 2 == 1
}

/// Whether a place is one of the six neighbours of another.
fn is_round(centre: Place, place: Place) -> bool
    requires { IsWithin 10000 centre }
    ensures { result ≡ is_round centre place }
{
    Dir::ALL.iter().any(
        |d| -> bool
            requires { IsWithin 10000 centre }
        { centre.step(*d).is(place) },
    )
}

/// Whether a place is beside the queen of a side, if she is on the board.
fn is_beside_queen<B: Board>(board: &B, side: Colour, place: Place) -> bool
    ensures { result ≡ is_beside (spot_of (B.stacks board.now) (queen_of side)) place }
{
    match board.spot(side.queen()) {
        Some(spot) => is_round(spot.place, place),
        None => false,
    }
}

/// Whether white closes in at a place: a black piece is on top there, or it is beside black's
/// queen.
fn closes_in<G: Game>(game: &G, place: Place) -> bool
    ensures { result ≡ closes_in (position (G.history game.now)) place }
{
    match game.top(place) {
        Some(piece) => {
            piece.colour().is(Colour::Black) || is_beside_queen(game, Colour::Black, place)
        }
        None => is_beside_queen(game, Colour::Black, place),
    }
}

/// Whether a move is sought in a siege. The pass is sought. A move of white is sought if it closes
/// in, and a move of black if its piece is on the board.
pub(crate) fn is_sought<G: Game>(game: &G, m: Move) -> bool
    ensures { result ≡ is_sought (position (G.history game.now)) m }
{
    match m {
        Move::Pass => true,
        Move::To { piece, place } => {
            if game.side().is(Colour::White) {
                closes_in(game, place)
            } else {
                game.spot(piece).is_some()
            }
        }
    }
}
