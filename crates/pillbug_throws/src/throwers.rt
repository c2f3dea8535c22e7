//! Who may throw.

ghost use Rattle.std.specs.Prelude.{◌≡◌, ◌↔◌, ◌&&◌, not, nat_eq, IsTrue};
ghost use Rattle.hive_model.specs.declared.places.Spot.{Spot};
ghost use Rattle.std.specs.List.{list_any};
ghost use Rattle.hive_model.specs.Boards.{height_at, top_at};
ghost use Rattle.hive_model.specs.Places.{step, dirs, IsOnTheMap};
ghost use Rattle.hive_model.specs.Positions.{is_piece};
ghost use Rattle.hive_model.specs.Throws.{IsThrower, is_pillbug, can_throw};
ghost use Rattle.pillbug_throws.specs.Throwing.{ThrowsFrom};

use hive_model::{Board, Dir, Kind, Piece, Place, Spot};

/// Whether a top piece is a pillbug.
fn is_pillbug(top: Option<Piece>) -> bool
    ensures { result ≡ is_pillbug top }
{
    match top {
        Some(piece) => piece.kind().is(Kind::Pillbug),
        None => false,
    }
}

/// Whether a piece on this place can throw by its kind: it is a pillbug, or a mosquito that touches
/// one.
#[tactic(auto, using(hive_model::proofs::PlaceLemmas::wider))]
fn can_throw<B: Board>(board: &B, piece: Piece, place: Place) -> bool
    requires { IsOnTheMap place }
    ensures { result ≡ can_throw (B.stacks board.now) piece place }
{
    piece.kind().is(Kind::Pillbug)
        || piece.kind().is(Kind::Mosquito) && touches_pillbug(board, place)
}

/// Whether the top piece of a neighbour is a pillbug.
#[tactic(auto, using(hive_model::proofs::PlaceLemmas::wider))]
fn touches_pillbug<B: Board>(board: &B, place: Place) -> bool
    requires { IsOnTheMap place }
    ensures { result ≡ list_any (λ d. is_pillbug (top_at (B.stacks board.now) (step place d)))
        dirs }
{
    Dir::ALL.iter().any(
        |d| -> bool
            requires { IsOnTheMap place }
        { is_pillbug(board.top(place.step(*d))) },
    )
}

/// Whether the piece on this place may throw from there.
fn throws_from<B: Board>(board: &B, piece: Piece, place: Place, rest: Option<Piece>) -> bool
    requires { IsOnTheMap place }
    ensures { result ≡ (nat_eq (height_at (B.stacks board.now) place) 1 &&
        (not (is_piece piece rest) && can_throw (B.stacks board.now) piece place)) }
{
    board.height(place) == 1 && !piece.rests(&rest) && can_throw(board, piece, place)
}

/// Whether the piece may throw: it is a pillbug, or a mosquito that touches a pillbug, it is alone
/// on its place, and it does not rest. It may stand on a cut place.
pub fn may_throw<B: Board>(board: &B, piece: Piece, rest: Option<Piece>) -> bool
    ensures { IsTrue result ↔ ((t : Spot) × IsThrower (B.stacks board.now) rest piece t) }
{
    match board.spot(piece) {
        Some(spot) => throws_from(board, piece, spot.place, rest),
        None => false,
    }
}

/// Where the piece may throw from: where it stands, if it may throw.
pub fn throwing_spot<B: Board>(board: &B, piece: Piece, rest: Option<Piece>) -> Option<Spot>
    ensures { ThrowsFrom (B.stacks board.now) rest piece result }
{
    if may_throw(board, piece, rest) {
        board.spot(piece)
    } else {
        None
    }
}
