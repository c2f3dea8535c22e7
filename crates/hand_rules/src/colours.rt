//! Colours on the board, and where a side may place.

ghost use Rattle.std.specs.Prelude.{◌≡◌, ◌↔◌, Option, IsTrue};
ghost use Rattle.hive_model.specs.Places.{IsWithin, step, IsOnTheMap};
ghost use Rattle.hive_model.specs.Boards.{IsBoard, top_at};
ghost use Rattle.hive_model.specs.Placement.{
  MayPlace,
  has_colour,
  shows_colour,
  touches,
  is_beside,
  may_place,
};

use hive_model::{Board, Colour, Dir, Piece, Place};

/// The place of the first piece of a game.
pub const ORIGIN: Place = Place { q: 0, r: 0 };

/// Whether a piece of this colour is on the board.
pub fn has_colour<B: Board>(board: &B, colour: Colour) -> bool
    ensures answer { result ≡ has_colour (B.stacks board.now) colour }
    ensures board { IsBoard (B.stacks board.now) }
{
    board.lemma_board();
    for x in 0..28u8 {
        let piece = Piece::at(x);
        if piece.colour().is(colour) && board.spot(piece).is_some() {
            return true;
        }
    }
    false
}

/// Whether there is a top piece, of this colour.
pub fn shows(top: Option<Piece>, colour: Colour) -> bool
    ensures { result ≡ shows_colour top colour }
{
    match top {
        Some(piece) => piece.colour().is(colour),
        None => false,
    }
}

/// Whether the top piece of the neighbour in this direction is of this colour.
fn shows_toward<B: Board>(board: &B, colour: Colour, place: Place, dir: Dir) -> bool
    requires { IsWithin 10000 place }
    ensures { result ≡ shows_colour (top_at (B.stacks board.now) (step place dir)) colour }
{
    shows(board.top(place.step(dir)), colour)
}

/// Whether a neighbour's top piece is of this colour. All six are asked, whatever the first ones
/// say: which of them is the first to say so cannot be foreseen.
pub fn touches<B: Board>(board: &B, colour: Colour, place: Place) -> bool
    requires { IsWithin 10000 place }
    ensures { result ≡ touches (B.stacks board.now) colour place }
{
    let east = shows_toward(board, colour, place, Dir::E);
    let north_east = shows_toward(board, colour, place, Dir::NE);
    let north_west = shows_toward(board, colour, place, Dir::NW);
    let west = shows_toward(board, colour, place, Dir::W);
    let south_west = shows_toward(board, colour, place, Dir::SW);
    let south_east = shows_toward(board, colour, place, Dir::SE);
    east | (north_east | (north_west | (west | (south_west | south_east))))
}

/// Whether a neighbour is occupied.
fn is_beside<B: Board>(board: &B, place: Place) -> bool
    requires { IsWithin 10000 place }
    ensures { result ≡ is_beside (B.stacks board.now) place }
{
    Dir::ALL.iter().any(
        |d| -> bool
            requires { IsWithin 10000 place }
        { board.height(place.step(*d)) > 0 },
    )
}

/// The test of `may_place`.
#[tactic(auto, using(hive_model::proofs::PlaceLemmas::wider))]
fn may_stand<B: Board>(board: &B, colour: Colour, place: Place) -> bool
    requires { IsOnTheMap place }
    ensures { result ≡ may_place (B.stacks board.now) colour place }
{
    if board.height(place) > 0 {
        return false;
    }
    if has_colour(board, colour) {
        touches(board, colour, place) && !touches(board, colour.other(), place)
    } else if has_colour(board, colour.other()) {
        is_beside(board, place)
    } else {
        place.is(ORIGIN)
    }
}

/// Whether a piece of this colour may be placed there. The place is empty. On an empty board it is
/// (0,0); where the other side alone has pieces on the board it is beside one of them; else it
/// touches a top piece of this colour and none of the other.
pub fn may_place<B: Board>(board: &B, colour: Colour, place: Place) -> bool
    requires { IsOnTheMap place }
    ensures { IsTrue result ↔ MayPlace (B.stacks board.now) colour place }
{
    may_stand(board, colour, place)
}
