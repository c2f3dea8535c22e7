//! Where a piece may be thrown.

ghost use Rattle.std.specs.Prelude.{
  ◌≡◌,
  ◌↔◌,
  ◌⊎◌,
  ℕ,
  ◌<◌,
  ◌&&◌,
  [],
  nat_eq,
  not,
  Option,
  Some,
  IsTrue,
};
ghost use Rattle.hive_model.specs.declared.places.Place.{Place};
ghost use Rattle.hive_model.specs.declared.places.Spot.{Spot};
ghost use Rattle.hive_model.specs.Boards.{height_at, is_occupied, top_at};
ghost use Rattle.hive_model.specs.Hive.{are_neighbours};
ghost use Rattle.hive_model.specs.PlaceLists.{AreAll};
ghost use Rattle.hive_model.specs.Places.{is_place, step, IsOnTheMap};
ghost use Rattle.hive_model.specs.Positions.{is_piece};
ghost use Rattle.hive_model.specs.Throws.{IsThrower};
ghost use Rattle.one_hive.specs.Visits.{IsSet};
ghost use Rattle.pillbug_throws.specs.Throwing.{
  AreClose,
  IsLoose,
  StandsLoose,
  ComesDown,
  ThrowsTo,
};

use gates::{climb_ok, climb_toward};
use hive_model::{Board, Cuts, Dir, Lifted, Piece, Place, PlaceList, add_place};
use one_hive::Marks;

/// Whether a direction leads from one place to the other.
#[tactic(auto, using(hive_model::proofs::PlaceLemmas::wider))]
fn are_neighbours(place: Place, other: Place) -> bool
    requires { IsOnTheMap place }
    ensures { result ≡ are_neighbours place other }
{
    Dir::ALL.iter().any(
        |d| -> bool
            requires { IsOnTheMap place }
        { place.step(*d).is(other) },
    )
}

/// Whether the piece is alone on its place, does not rest, and stands beside the thrower.
fn is_at_hand<B: Board>(
    board: &B,
    over: Place,
    piece: Piece,
    from: Place,
    rest: Option<Piece>,
) -> bool
    requires { IsOnTheMap over }
    ensures { result ≡ (nat_eq (height_at (B.stacks board.now) from) 1 &&
        (not (is_piece piece rest) && are_neighbours over from)) }
{
    board.height(from) == 1 && !piece.rests(&rest) && are_neighbours(over, from)
}

/// Whether the piece can be lifted from its place over the thrower's: it is alone there, does not
/// rest, stands beside the thrower, and on no cut place.
#[inline(never)]
fn is_loose<B: Cuts>(board: &B, over: Place, piece: Piece, from: Place, rest: Option<Piece>) -> bool
    requires occupied { IsTrue (is_occupied (B.stacks board.now) from) }
    requires within { IsOnTheMap over }
    ensures { IsTrue result ↔ IsLoose (B.stacks board.now) rest over piece from }
{
    if !is_at_hand(board, over, piece, from, rest) {
        return false;
    }
    !board.is_cut(from)
}

/// Whether the coordinates of two places differ by at most 1 each, as those of neighbours do.
fn is_close(place: Place, other: Place) -> bool
    requires place { IsOnTheMap place }
    requires other { IsOnTheMap other }
    ensures { AreClose place other → IsTrue result }
{
    if place.q > other.q + 1 {
        return false;
    }
    if other.q > place.q + 1 {
        return false;
    }
    if place.r > other.r + 1 {
        return false;
    }
    if other.r > place.r + 1 {
        return false;
    }
    true
}

/// Whether the piece, of either colour, can be lifted over a thrower on this place: it is on the
/// board, alone on a neighbour of the place that is no cut place, and does not rest. Most pieces
/// stand far from the place, which two reads tell: no call is paid for these.
#[inline(always)]
pub fn may_be_thrown<B: Cuts>(board: &B, over: Place, piece: Piece, rest: Option<Piece>) -> bool
    requires { IsOnTheMap over }
    ensures { IsTrue result ↔ StandsLoose (B.stacks board.now) rest over piece }
{
    let Some(from) = board.spot(piece) else {
        return false;
    };
    if !is_close(over, from.place) {
        return false;
    }
    is_loose(board, over, piece, from.place, rest)
}

/// Marks the piece on top of the place, if one is.
fn mark_top<B: Board>(board: &B, place: Place, marks: &mut Marks)
    ensures { (x : ℕ) → IsSet marks.new x
        ↔ ((top_at (B.stacks board.now) place ≡ Some x) ⊎ IsSet marks.old x) }
{
    if let Some(piece) = board.top(place) {
        marks.mark(piece);
    }
}

/// Marks the top pieces of the neighbours of a thrower's place. No other piece can be thrown.
pub fn mark_beside<B: Board>(board: &B, over: Place, marks: &mut Marks)
    requires { IsOnTheMap over }
    ensures beside { (rest : Option ℕ) (x : ℕ) → StandsLoose (B.stacks board.now) rest over x
        → IsSet marks.new x }
    ensures kept { (x : ℕ) → IsSet marks.old x → IsSet marks.new x }
{
    for dir in Dir::ALL {
        mark_top(board, over.step(dir), marks);
    }
}

/// Whether the place is empty, and not the one that the piece was lifted from.
fn is_open<B: Board>(board: &B, from: Place, to: Place) -> bool
    ensures { result ≡ (nat_eq (height_at (B.stacks board.now) to) 0 && not (is_place from to)) }
{
    board.height(to) == 0 && !from.is(to)
}

/// Whether a piece that was lifted from a place may come down from the thrower on its neighbour in
/// this direction.
fn comes_down<B: Board, L: Board>(
    board: &B,
    lifted: &L,
    over: Place,
    dir: Dir,
    from: Place,
    to: Place,
) -> bool
    requires leads { to ≡ step over dir }
    requires within { IsOnTheMap over }
    ensures { IsTrue result ↔ ComesDown (B.stacks board.now) (L.stacks lifted.now) over from to }
{
    if !is_open(board, from, to) {
        return false;
    }
    climb_toward(lifted, over, dir, to)
}

/// Adds the neighbours of the thrower on which a piece that was lifted from a place may come down.
fn add_places<B: Board, L: Board>(
    board: &B,
    lifted: &L,
    over: Place,
    from: Place,
    out: &mut PlaceList,
)
    requires within { IsOnTheMap over }
    requires empty { out.old.items ≡ [] }
    ensures { AreAll (ComesDown (B.stacks board.now) (L.stacks lifted.now) over from)
        out.new.items }
{
    for dir in Dir::ALL {
        let to = over.step(dir);
        if comes_down(board, lifted, over, dir, from, to) {
            add_place(out, to);
        }
    }
}

/// All places to which the thrower may throw the piece, of either colour, in order, each once. The
/// piece is alone on a neighbour of the thrower's place that is no cut place, and does not rest. It
/// comes down on another neighbour, which is empty. On the board without it, neither its step up
/// onto the thrower nor its step down is blocked by two higher common neighbours.
pub fn throws<B: Cuts>(
    board: &B,
    thrower: Piece,
    thrown: Piece,
    rest: Option<Piece>,
    out: &mut PlaceList,
)
    requires may { (t : Spot) × IsThrower (B.stacks board.now) rest thrower t }
    requires empty { out.old.items ≡ [] }
    ensures { AreAll (ThrowsTo (B.stacks board.now) rest thrower thrown) out.new.items }
{
    let Some(over) = board.spot(thrower) else {
        return;
    };
    let Some(from) = board.spot(thrown) else {
        return;
    };
    if !is_loose(board, over.place, thrown, from.place, rest) {
        return;
    }
    let lifted = Lifted::new(board, thrown);
    if climb_ok(&lifted, from.place, over.place) {
        add_places(board, &lifted, over.place, from.place, out);
    }
}
