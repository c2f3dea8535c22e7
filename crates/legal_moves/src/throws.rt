//! Where a piece is thrown, and where a piece of the board goes at all.

ghost use Rattle.std.specs.Prelude.{◌≡◌, ◌↔◌, ◌⊎◌, ℕ, [], IsTrue};
ghost use Rattle.hive_model.specs.declared.places.Place.{Place};
ghost use Rattle.hive_model.specs.Lists.{IsOn};
ghost use Rattle.hive_model.specs.PlaceLists.{AreAll};
ghost use Rattle.hive_model.specs.Boards.{IsBoard, is_in_play};
ghost use Rattle.hive_model.specs.declared.places.Spot.{Spot};
ghost use Rattle.hive_model.specs.Throws.{IsThrower, Throw};
ghost use Rattle.one_hive.specs.Visits.{IsSet};
ghost use Rattle.bug_moves.specs.Counts.{AreMany};
ghost use Rattle.pillbug_throws.specs.Throwing.{ThrowsFrom};
ghost use Rattle.legal_moves.specs.Going.{
  ThrownBy,
  CanLift,
  AreThrowers,
  AreGoals,
  IsMoved,
  position_of,
};

use crate::merging::add_all;
use crate::turns::{Throwers, Turn, again, is_in_play, mosquito_of, pillbug_of};
use crate::walks::{count_walks, is_walk, walks};
use hive_model::{Board, Cuts, Piece, Place, PlaceList, Spot, has_place};
use one_hive::Marks;
use pillbug_throws::{mark_beside, may_be_thrown, throwing_spot, throws};

/// Finds where the piece may throw from, and marks the pieces beside it there: among them are all
/// that it can lift.
fn find_thrower<B: Board>(
    board: &B,
    turn: &Turn,
    thrower: Piece,
    beside: &mut Marks,
) -> Option<Spot>
    ensures over { ThrowsFrom (B.stacks board.now) turn.now.rest thrower result }
    ensures lifted { (x : ℕ) → CanLift (B.stacks board.now) turn.now.rest thrower x
        → IsSet beside.new x }
    ensures kept { (x : ℕ) → IsSet beside.old x → IsSet beside.new x }
{
    let Some(over) = throwing_spot(board, thrower, again(&turn.rest)) else {
        return None;
    };
    board.lemma_board();
    mark_beside(board, over.place, beside);
    Some(over)
}

/// Finds who throws for the side to move.
pub fn find_throwers<B: Board>(board: &B, turn: &Turn) -> Throwers
    ensures { AreThrowers (position_of (B.stacks board.now) turn.now) result }
{
    let mut beside = Marks::new();
    let pillbug = find_thrower(board, turn, pillbug_of(turn.side), &mut beside);
    let mosquito = find_thrower(board, turn, mosquito_of(turn.side), &mut beside);
    Throwers {
        pillbug,
        mosquito,
        beside,
    }
}

/// Adds where the one piece, which may throw, throws the other. The list of these places is a
/// function's own, so that no call that adds none pays for it.
#[inline(never)]
fn add_thrown<B: Cuts>(board: &B, turn: &Turn, thrower: Piece, piece: Piece, out: &mut PlaceList)
    requires board { IsBoard (B.stacks board.now) }
    requires may { (t : Spot) × IsThrower (B.stacks board.now) turn.now.rest thrower t }
    requires list { AreGoals (B.stacks board.now) piece out.old.items }
    ensures list { AreGoals (B.stacks board.now) piece out.new.items }
    ensures added { (q : Place) → IsOn out.new.items q
        ↔ (IsOn out.old.items q ⊎ ThrownBy (B.stacks board.now) turn.now.rest thrower piece q) }
{
    let mut places = PlaceList::new();
    throws(board, thrower, piece, again(&turn.rest), &mut places);
    add_all(places.as_slice(), out);
}

/// Adds where the one piece throws the other. `over` is where the thrower may throw from.
fn add_throws<B: Cuts>(
    board: &B,
    turn: &Turn,
    thrower: Piece,
    over: Option<Spot>,
    piece: Piece,
    out: &mut PlaceList,
)
    requires board { IsBoard (B.stacks board.now) }
    requires over { ThrowsFrom (B.stacks board.now) turn.now.rest thrower over }
    requires list { AreGoals (B.stacks board.now) piece out.old.items }
    ensures list { AreGoals (B.stacks board.now) piece out.new.items }
    ensures added { (q : Place) → IsOn out.new.items q
        ↔ (IsOn out.old.items q ⊎ ThrownBy (B.stacks board.now) turn.now.rest thrower piece q) }
{
    let Some(over) = over else {
        return;
    };
    if may_be_thrown(board, over.place, piece, again(&turn.rest)) {
        add_thrown(board, turn, thrower, piece, out);
    }
}

/// Adds where a thrower of the side to move throws the piece: its pillbug, and its mosquito.
fn add_all_throws<B: Cuts>(
    board: &B,
    turn: &Turn,
    throwers: &Throwers,
    piece: Piece,
    out: &mut PlaceList,
)
    requires board { IsBoard (B.stacks board.now) }
    requires throwers { AreThrowers (position_of (B.stacks board.now) turn.now) throwers.now }
    requires list { AreGoals (B.stacks board.now) piece out.old.items }
    ensures list { AreGoals (B.stacks board.now) piece out.new.items }
    ensures added { (q : Place) → IsOn out.new.items q
        ↔ (IsOn out.old.items q ⊎ Throw (position_of (B.stacks board.now) turn.now) piece q) }
{
    if !throwers.beside.is_set(piece) {
        return;
    }
    add_throws(
        board,
        turn,
        pillbug_of(turn.side),
        throwers.pillbug,
        piece,
        out,
    );
    add_throws(
        board,
        turn,
        mosquito_of(turn.side),
        throwers.mosquito,
        piece,
        out,
    );
}

/// Lists where a piece of the board goes by its own rule or is thrown, once the queen of the side
/// to move is in play.
pub fn moved_places<B: Cuts>(
    board: &B,
    turn: &Turn,
    throwers: &Throwers,
    piece: Piece,
    out: &mut PlaceList,
)
    requires board { IsBoard (B.stacks board.now) }
    requires throwers { AreThrowers (position_of (B.stacks board.now) turn.now) throwers.now }
    requires empty { out.old.items ≡ [] }
    ensures { AreAll (IsMoved (position_of (B.stacks board.now) turn.now) piece) out.new.items }
{
    if !is_in_play(board, turn.side.queen()) {
        return;
    }
    walks(board, turn, piece, out);
    add_all_throws(board, turn, throwers, piece, out);
}

/// To how many places a piece of the board goes by its own rule or is thrown: as many as
/// `moved_places` lists. `places` is a list to write on.
pub fn count_moved<B: Cuts>(
    board: &B,
    turn: &Turn,
    throwers: &Throwers,
    piece: Piece,
    places: &mut PlaceList,
) -> usize
    requires board { IsBoard (B.stacks board.now) }
    requires throwers { AreThrowers (position_of (B.stacks board.now) turn.now) throwers.now }
    ensures { AreMany (IsMoved (position_of (B.stacks board.now) turn.now) piece) result }
{
    if !throwers.beside.is_set(piece) {
        return count_unthrown(board, turn, piece, places);
    }
    places.clear();
    moved_places(board, turn, throwers, piece, places);
    places.len()
}

/// The same for a piece that nobody throws.
fn count_unthrown<B: Cuts>(board: &B, turn: &Turn, piece: Piece, places: &mut PlaceList) -> usize
    requires board { IsBoard (B.stacks board.now) }
    requires unthrown { (q : Place)
        → ¬ Throw (position_of (B.stacks board.now) turn.now) piece q }
    ensures { AreMany (IsMoved (position_of (B.stacks board.now) turn.now) piece) result }
{
    if !is_in_play(board, turn.side.queen()) {
        return 0;
    }
    count_walks(board, turn, piece, places)
}

/// Whether the one piece, which may throw, throws the other to the place.
#[inline(never)]
fn is_on_throws<B: Cuts>(board: &B, turn: &Turn, thrower: Piece, piece: Piece, place: Place) -> bool
    requires { (t : Spot) × IsThrower (B.stacks board.now) turn.now.rest thrower t }
    ensures { IsTrue result ↔ ThrownBy (B.stacks board.now) turn.now.rest thrower piece place }
{
    let mut places = PlaceList::new();
    throws(board, thrower, piece, again(&turn.rest), &mut places);
    has_place(places.as_slice(), place)
}

/// Whether the one piece throws the other to the place.
fn is_thrown_by<B: Cuts>(board: &B, turn: &Turn, thrower: Piece, piece: Piece, place: Place) -> bool
    ensures { IsTrue result ↔ ThrownBy (B.stacks board.now) turn.now.rest thrower piece place }
{
    let Some(over) = throwing_spot(board, thrower, again(&turn.rest)) else {
        return false;
    };
    board.lemma_board();
    if !may_be_thrown(board, over.place, piece, again(&turn.rest)) {
        return false;
    }
    is_on_throws(board, turn, thrower, piece, place)
}

/// Whether a thrower of the side to move throws the piece to the place.
fn is_thrown<B: Cuts>(board: &B, turn: &Turn, piece: Piece, place: Place) -> bool
    ensures { IsTrue result ↔ Throw (position_of (B.stacks board.now) turn.now) piece place }
{
    if is_thrown_by(board, turn, pillbug_of(turn.side), piece, place) {
        return true;
    }
    is_thrown_by(board, turn, mosquito_of(turn.side), piece, place)
}

/// Whether a piece of the board goes to the place by its own rule or is thrown there, once the
/// queen of the side to move is in play.
pub fn is_moved<B: Cuts>(board: &B, turn: &Turn, piece: Piece, place: Place) -> bool
    requires { IsBoard (B.stacks board.now) }
    ensures { IsTrue result ↔ IsMoved (position_of (B.stacks board.now) turn.now) piece place }
{
    if !is_in_play(board, turn.side.queen()) {
        return false;
    }
    if is_walk(board, turn, piece, place) {
        return true;
    }
    is_thrown(board, turn, piece, place)
}
