//! The tests of being far from a win or a loss, on any board.

ghost use Rattle.std.specs.Prelude.{◌≡◌, ◌≤ℤ◌, pos, neg_ℤ, Some, IsTrue};
ghost use Rattle.hive_model.specs.Pieces.{other_side, queen_of};
ghost use Rattle.hive_model.specs.Places.{IsWithin, IsOnTheMap};
ghost use Rattle.hive_model.specs.Boards.{IsBoard, spot_of, top_at};
ghost use Rattle.hive_model.specs.Minimax.{value};
ghost use Rattle.hive_model.specs.Histories.{position};
ghost use Rattle.win_bounds.specs.FarFromWin.{
  is_hole,
  has_hole,
  is_own_thrower,
  throws_in,
  is_far_place,
  is_far_spot,
  is_far_from_win,
  is_home_spot,
  is_far_from_loss,
};

use hive_model::{Board, Colour, Dir, Game, Kind, Piece, Place, is_walled};

/// Whether a piece is a pillbug or a mosquito of the side.
fn is_own_thrower(side: Colour, piece: Piece) -> bool
    ensures { result ≡ is_own_thrower side (Some piece) }
{
    piece.colour().is(side) && (piece.kind().is(Kind::Pillbug) || piece.kind().is(Kind::Mosquito))
}

/// Whether the place is empty and all six neighbours are occupied.
fn is_hole<B: Board>(board: &B, place: Place) -> bool
    requires { IsWithin 10000 place }
    ensures { result ≡ is_hole (B.stacks board.now) place }
{
    board.height(place) == 0 && is_walled(board, place)
}

/// Whether a neighbour of the place is a hole.
#[tactic(auto, using(crate::proofs::ThrowLaws::step_out))]
fn has_hole<B: Board>(board: &B, place: Place) -> bool
    requires { IsWithin 9600 place }
    ensures { result ≡ has_hole (B.stacks board.now) place }
{
    Dir::ALL.iter().any(
        |d| -> bool
            requires { IsWithin 9600 place }
        { is_hole(board, place.step(*d)) },
    )
}

/// Whether a pillbug or a mosquito of the side is on top of the place, and a hole is beside it. The
/// caller gives the top piece.
fn throws_in<B: Board>(board: &B, side: Colour, place: Place, top: Piece) -> bool
    requires within { IsWithin 9600 place }
    requires top { top_at (B.stacks board.now) place ≡ Some top }
    ensures { result ≡ throws_in (B.stacks board.now) side place }
{
    is_own_thrower(side, top) && has_hole(board, place)
}

/// Whether at most four neighbours of the place are occupied, and none of them has a thrower on
/// top. A thrower here is a pillbug or a mosquito of the side with a hole beside it.
fn is_far_place<B: Board>(board: &B, side: Colour, queen: Place) -> bool
    requires { IsOnTheMap queen }
    ensures { result ≡ is_far_place (B.stacks board.now) side queen }
{
    let mut occupied = 0u32;
    for dir in Dir::ALL {
        let place = queen.step(dir);
        let Some(top) = board.top(place) else {
            continue;
        };
        if occupied == 4 || throws_in(board, side, place, top) {
            return false;
        }
        occupied += 1;
    }
    true
}

/// Whether no move of this side can surround the other side's queen, as far as the board shows. She
/// is in hand, or two conditions hold. At most four places around her are occupied, and no pillbug
/// or mosquito of this side beside her has a hole beside it.
pub(crate) fn is_far_on<B: Board>(board: &B, side: Colour) -> bool
    ensures far { result ≡ is_far_spot (B.stacks board.now) side
        (spot_of (B.stacks board.now) (queen_of (other_side side))) }
    ensures board { IsBoard (B.stacks board.now) }
{
    match board.spot(side.other().queen()) {
        Some(spot) => is_far_place(board, side, spot.place),
        None => true,
    }
}

/// Whether no move of this side can surround its own queen, as far as the board shows. She is on
/// the ground, and at most four places around her are occupied. No pillbug or mosquito of this side
/// beside her has a hole beside it.
pub(crate) fn is_home_on<B: Board>(board: &B, side: Colour) -> bool
    ensures far { result ≡ is_home_spot (B.stacks board.now) side
        (spot_of (B.stacks board.now) (queen_of side)) }
    ensures board { IsBoard (B.stacks board.now) }
{
    match board.spot(side.queen()) {
        Some(spot) => spot.level == 0 && is_far_place(board, side, spot.place),
        None => false,
    }
}

/// Whether the side to move is far from a win. The other side's queen is in hand, or two conditions
/// hold. At most four places around her are occupied, and no pillbug or mosquito of the side to
/// move beside her has a hole beside it. A hole is an empty place with all six places around it
/// occupied. If the test holds, the side to move cannot win with its next move. If no such piece is
/// beside her, the test looks up the queen's spot and at most six places.
pub fn is_far_from_win<G: Game>(game: &G) -> bool
    ensures far { result ≡ is_far_from_win (position (G.history game.now)) }
    ensures worth { IsTrue result → value (position (G.history game.now)) 1 ≤ℤ pos 1000 }
{
    is_far_on(game, game.side())
}

/// Whether the side to move is far from a loss. Its own queen is on the ground, and at most four
/// places around her are occupied. No pillbug or mosquito of the side to move beside her has a hole
/// beside it. If the test holds, the side to move cannot lose with its next move. The test looks up
/// as many places as `is_far_from_win` does.
pub fn is_far_from_loss<G: Game>(game: &G) -> bool
    ensures far { result ≡ is_far_from_loss (position (G.history game.now)) }
    ensures worth { IsTrue result → neg_ℤ (pos 1000) ≤ℤ value (position (G.history game.now)) 1 }
{
    is_home_on(game, game.side())
}
