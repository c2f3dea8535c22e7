//! Corrects the marks for a board, one place after another.

ghost use Rattle.std.specs.Prelude.{
  ◌≡◌,
  ◌≢◌,
  ◌↔◌,
  ◌⊎◌,
  ℕ,
  ◌+◌,
  ◌≤◌,
  pos,
  Some,
  [],
  ◌∷◌,
  IsTrue,
};
ghost use Rattle.hive_model.specs.Places.{dirs, IsOnTheMap};
ghost use Rattle.hive_model.specs.Boards.{is_occupied, top_at};
ghost use Rattle.hive_model.specs.Hive.{OneHive, IsSeparating};
ghost use Rattle.euler.specs.Euler.{euler_number};
ghost use Rattle.one_hive.specs.Visits.{IsSet};
ghost use Rattle.cut_keeper.specs.Rings.{later};
ghost use Rattle.cut_keeper.specs.Keeping.{Right, HalfRight, HasMask, Pending, suspects};

use crate::rings::is_suspect;
use euler::told_by_arcs;
use hive_model::{Board, Dir, Piece, Place};
use one_hive::{Marks, Steps, walk_parts};
use std::sync::ledger::Ledger;

/// The place at which a piece was put or taken, the mask of its occupied neighbours, and Euler's
/// number of the board.
#[derive(Clone, Copy)]
pub(crate) struct Site {
    pub(crate) place: Place,
    pub(crate) mask: u8,
    pub(crate) number: i32,
}

/// An occupied place, and the piece on top of it.
#[derive(Clone, Copy)]
pub(crate) struct Topped {
    pub(crate) place: Place,
    pub(crate) top: Piece,
}

/// Whether an occupied place is separating. Its arcs and Euler's number decide, always if the
/// number is 1. Otherwise a walk may have to decide. It ends once it has met all neighbours of the
/// place.
fn is_separating<B: Board, L: Ledger>(
    board: &B,
    number: i32,
    place: Place,
    steps: &mut Steps<L>,
) -> bool
    requires one_hive { OneHive (B.stacks board.now) }
    requires number { number ≡ euler_number (B.stacks board.now) }
    requires occupied { IsTrue (is_occupied (B.stacks board.now) place) }
    requires within { IsOnTheMap place }
    ensures cut { IsTrue result ↔ IsSeparating (B.stacks board.now) place }
    ensures none { number ≡ pos 1 → steps.new ≡ steps.old }
    ensures step { steps.new ≤ steps.old + 1 }
{
    board.lemma_board();
    if let Some(told) = told_by_arcs(board.neighbours(place), number) {
        return told;
    }
    walk_parts(board, place, steps)
}

/// Corrects the mark of an occupied place.
pub(crate) fn examine<B: Board, L: Ledger>(
    marks: &mut Marks,
    board: &B,
    number: i32,
    at: Topped,
    steps: &mut Steps<L>,
)
    requires one_hive { OneHive (B.stacks board.now) }
    requires number { number ≡ euler_number (B.stacks board.now) }
    requires top { top_at (B.stacks board.now) at.place ≡ Some at.top }
    requires within { IsOnTheMap at.place }
    ensures right { Right (B.stacks board.now) marks.new at.place }
    ensures others { (x : ℕ) → x ≢ at.top → IsSet marks.new x ↔ IsSet marks.old x }
    ensures none { number ≡ pos 1 → steps.new ≡ steps.old }
    ensures step { steps.new ≤ steps.old + 1 }
{
    let is_cut = is_separating(board, number, at.place, steps);
    marks.give(at.top, is_cut);
}

/// Corrects the mark of an occupied place, which can be wrong only if its value is `doubted`.
fn examine_doubted<B: Board, L: Ledger>(
    marks: &mut Marks,
    board: &B,
    number: i32,
    at: Topped,
    doubted: bool,
    steps: &mut Steps<L>,
)
    requires one_hive { OneHive (B.stacks board.now) }
    requires number { number ≡ euler_number (B.stacks board.now) }
    requires top { top_at (B.stacks board.now) at.place ≡ Some at.top }
    requires within { IsOnTheMap at.place }
    requires half { Right (B.stacks board.now) marks.old at.place
        ⊎ HalfRight (B.stacks board.now) marks.old at.place doubted }
    ensures right { Right (B.stacks board.now) marks.new at.place }
    ensures others { (x : ℕ) → x ≢ at.top → IsSet marks.new x ↔ IsSet marks.old x }
    ensures none { number ≡ pos 1 → steps.new ≡ steps.old }
    ensures step { steps.new ≤ steps.old + 1 }
{
    if marks.is_set(at.top) == doubted {
        examine(marks, board, number, at, steps);
    }
}

/// Corrects the mark of the neighbour in this direction, if it is a suspect.
#[tactic(auto, using(hive_model::proofs::PlaceLemmas::wider))]
fn beside_one<B: Board, L: Ledger>(
    marks: &mut Marks,
    board: &B,
    site: Site,
    dir: Dir,
    doubted: bool,
    steps: &mut Steps<L>,
)
    requires ring { HasMask (B.stacks board.now) site.place site.mask }
    requires number { site.number ≡ euler_number (B.stacks board.now) }
    requires pending { Pending (B.stacks board.now) site.place doubted (dir ∷ later dir) marks.old }
    ensures pending { Pending (B.stacks board.now) site.place doubted (later dir) marks.new }
    ensures none { site.number ≡ pos 1 → steps.new ≡ steps.old }
    ensures steps { steps.new + suspects (B.stacks board.now) site.place (later dir)
        ≤ steps.old + suspects (B.stacks board.now) site.place (dir ∷ later dir) }
{
    if !is_suspect(site.mask, dir) {
        return;
    }
    let place = site.place.step(dir);
    if let Some(top) = board.top(place) {
        examine_doubted(
            marks,
            board,
            site.number,
            Topped { place, top },
            doubted,
            steps,
        );
    }
}

/// Corrects the marks of the neighbours that are suspects.
pub(crate) fn beside<B: Board, L: Ledger>(
    marks: &mut Marks,
    board: &B,
    site: Site,
    doubted: bool,
    steps: &mut Steps<L>,
)
    requires ring { HasMask (B.stacks board.now) site.place site.mask }
    requires number { site.number ≡ euler_number (B.stacks board.now) }
    requires pending { Pending (B.stacks board.now) site.place doubted dirs marks.old }
    ensures pending { Pending (B.stacks board.now) site.place doubted [] marks.new }
    ensures none { site.number ≡ pos 1 → steps.new ≡ steps.old }
    ensures steps { steps.new ≤ steps.old + suspects (B.stacks board.now) site.place dirs }
{
    beside_one(marks, board, site, Dir::E, doubted, steps);
    beside_one(marks, board, site, Dir::NE, doubted, steps);
    beside_one(marks, board, site, Dir::NW, doubted, steps);
    beside_one(marks, board, site, Dir::W, doubted, steps);
    beside_one(marks, board, site, Dir::SW, doubted, steps);
    beside_one(marks, board, site, Dir::SE, doubted, steps);
}
