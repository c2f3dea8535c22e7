//! Separating places, known by the pieces on top of them.

ghost use Rattle.std.specs.Prelude.{◌≡◌, ◌↔◌, ◌+◌, ◌⊎◌, ℕ, Some};
ghost use Rattle.hive_model.specs.declared.places.Place.{Place};
ghost use Rattle.hive_model.specs.Boards.{top_at};
ghost use Rattle.hive_model.specs.Lists.{IsOn};
ghost use Rattle.one_hive.specs.Visits.{IsSet};
ghost use Rattle.one_hive.specs.Separating.{MarksSeparating};

use crate::marks::Marks;
use crate::separating::separating_places;
use crate::steps::Steps;
use hive_model::{Board, Place, PlaceList, place_at};
use std::sync::ledger::Ledger;

/// Marks the piece on top of the place, if one is.
pub(crate) fn mark_top<B: Board>(board: &B, place: Place, marks: &mut Marks)
    ensures { (x : ℕ) → IsSet marks.new x
        ↔ ((top_at (B.stacks board.now) place ≡ Some x) ⊎ IsSet marks.old x) }
{
    if let Some(piece) = board.top(place) {
        marks.mark(piece);
    }
}

/// Which pieces are on top of these places.
fn tops_of<B: Board>(board: &B, places: &PlaceList) -> Marks
    ensures { (x : ℕ) → IsSet result x
        ↔ ((p : Place) × IsOn places.now.items p × (top_at (B.stacks board.now) p ≡ Some x)) }
{
    let mut marks = Marks::new();
    for i in 0..places.len() {
        mark_top(board, place_at(places, i), &mut marks);
    }
    marks
}

/// Marks of the pieces on top of separating places. Where the board is one hive of two places or
/// more, one walk goes once over each place. It counts as one step.
pub fn mark_separating<B: Board, L: Ledger>(board: &B, steps: &mut Steps<L>) -> Marks
    ensures marks { MarksSeparating (B.stacks board.now) result }
    ensures step { steps.new ≡ steps.old + 1 }
{
    steps.tick();
    board.lemma_board();
    let mut places = PlaceList::new();
    separating_places(board, &mut places);
    tops_of(board, &places)
}
