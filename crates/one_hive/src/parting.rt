//! Whether a place holds one hive together, told by a walk round it.

ghost use Rattle.std.specs.Prelude.{◌≡◌, ◌↔◌, ◌⊎◌, ℕ, ◌+◌, Some, IsTrue};
ghost use Rattle.hive_model.specs.declared.places.Place.{Place};
ghost use Rattle.hive_model.specs.declared.places.Dir.{Dir};
ghost use Rattle.hive_model.specs.Boards.{IsBoard, is_occupied, top_at};
ghost use Rattle.hive_model.specs.Hive.{OneHive, OneHiveOn, IsSeparating};
ghost use Rattle.hive_model.specs.Lists.{IsOn};
ghost use Rattle.hive_model.specs.Neighbours.{ring, ring_mask};
ghost use Rattle.hive_model.specs.Places.{step, IsOnTheMap};
ghost use Rattle.one_hive.specs.Visits.{IsSet};
ghost use Rattle.one_hive.specs.Walks.{others, AreMarked, Joined};

use crate::hives::is_one_without;
use crate::marked::mark_top;
use crate::marks::Marks;
use crate::met::{Met, met_first, spread};
use crate::separating::dir_amid;
use crate::steps::Steps;
use gates::has_dir;
use hive_model::{Board, Dir, Place};
use std::sync::ledger::Ledger;

/// Marks the piece on top of the neighbour in this direction, if one is. The mask of the occupied
/// neighbours is at hand: an empty one is not looked at.
fn mark_toward<B: Board>(board: &B, place: Place, dir: Dir, taken: u8, marks: &mut Marks)
    requires within { IsOnTheMap place }
    requires taken { taken ≡ ring_mask (ring (is_occupied (B.stacks board.now)) place) }
    ensures { (x : ℕ) → IsSet marks.new x
        ↔ ((top_at (B.stacks board.now) (step place dir) ≡ Some x) ⊎ IsSet marks.old x) }
{
    if !has_dir(taken, dir) {
        return;
    }
    mark_top(board, place.step(dir), marks);
}

/// Marks of the pieces on top of the neighbours of a place, where the mask of the occupied ones is
/// at hand.
fn tops_beside<B: Board>(board: &B, place: Place, taken: u8) -> Marks
    requires within { IsOnTheMap place }
    requires taken { taken ≡ ring_mask (ring (is_occupied (B.stacks board.now)) place) }
    ensures { (x : ℕ) → IsSet result x
        ↔ ((d : Dir) × (top_at (B.stacks board.now) (step place d) ≡ Some x)) }
{
    let mut marks = Marks::new();
    mark_toward(board, place, Dir::E, taken, &mut marks);
    mark_toward(board, place, Dir::NE, taken, &mut marks);
    mark_toward(board, place, Dir::NW, taken, &mut marks);
    mark_toward(board, place, Dir::W, taken, &mut marks);
    mark_toward(board, place, Dir::SW, taken, &mut marks);
    mark_toward(board, place, Dir::SE, taken, &mut marks);
    marks
}

/// Places to which a walk over the occupied places leads from this one, without the one that is
/// left out: all, or enough of them for all marked pieces to be on top of one.
fn walk_until<B: Board>(board: &B, left_out: Option<Place>, start: Place, wanted: &Marks) -> Met
    requires board { IsBoard (B.stacks board.now) }
    requires start { IsTrue (others (B.stacks board.now) left_out start) }
    ensures marked { AreMarked (B.stacks board.now) result.places.items result.tops }
    ensures met { (p : Place) → IsOn result.places.items p
        → Joined (others (B.stacks board.now) left_out) start p }
    ensures end { ((x : ℕ) → IsSet wanted.now x → IsSet result.tops x)
        ⊎ ((p : Place) → Joined (others (B.stacks board.now) left_out) start p
        → IsOn result.places.items p) }
{
    let mut met = met_first(board, left_out, start);
    let mut next = 0;
    while next < met.places.len() {
        if met.tops.has_all(wanted) {
            return met;
        }
        let place = met.places.as_slice()[next];
        spread(board, left_out, place, &mut met);
        next += 1;
    }
    met
}

/// Whether one hive is one without the place: a walk from another place of it leads to all
/// neighbours of the place, whose top pieces are marked.
fn is_one_round<B: Board>(board: &B, place: Place, start: Place, beside: &Marks) -> bool
    requires board { IsBoard (B.stacks board.now) }
    requires one_hive { OneHive (B.stacks board.now) }
    requires occupied { IsTrue (is_occupied (B.stacks board.now) place) }
    requires start { IsTrue (others (B.stacks board.now) (Some place) start) }
    requires beside { (x : ℕ) → IsSet beside.now x
        ↔ ((d : Dir) × (top_at (B.stacks board.now) (step place d) ≡ Some x)) }
    ensures { IsTrue result ↔ OneHiveOn (others (B.stacks board.now) (Some place)) }
{
    let met = walk_until(board, Some(place), start, beside);
    met.tops.has_all(beside)
}

/// Whether a board that is one hive is not one without all pieces of this occupied place, however
/// many stand there. A walk from one neighbour ends as soon as it met all others. It counts as one
/// step.
pub fn walk_parts<B: Board, L: Ledger>(board: &B, place: Place, steps: &mut Steps<L>) -> bool
    requires one_hive { OneHive (B.stacks board.now) }
    requires occupied { IsTrue (is_occupied (B.stacks board.now) place) }
    requires within { IsOnTheMap place }
    ensures cut { IsTrue result ↔ IsSeparating (B.stacks board.now) place }
    ensures step { steps.new ≡ steps.old + 1 }
{
    steps.tick();
    board.lemma_board();
    let taken = board.neighbours(place);
    match dir_amid(taken) {
        Some(dir) => {
            let beside = tops_beside(board, place, taken);
            !is_one_round(board, place, place.step(dir), &beside)
        }
        None => !is_one_without(board, Some(place)),
    }
}
