//! Updates the marks of separating places after one piece was put on a place or taken from it.

ghost use Rattle.std.specs.Prelude.{
  ◌≡◌,
  ◌≢◌,
  ◌↔◌,
  ℕ,
  ◌+◌,
  ◌<◌,
  ◌≤◌,
  pos,
  Some,
  IsTrue,
};
ghost use Rattle.hive_model.specs.declared.places.Place.{Place as AnyPlace};
ghost use Rattle.hive_model.specs.Places.{step, IsOnTheMap};
ghost use Rattle.hive_model.specs.Boards.{IsBoard, height_at, is_occupied, top_at};
ghost use Rattle.hive_model.specs.Hive.{OneHive, IsSeparating};
ghost use Rattle.arcs.specs.Arcs.{OneArc};
ghost use Rattle.euler.specs.Euler.{euler_number};
ghost use Rattle.one_hive.specs.Visits.{IsSet};
ghost use Rattle.one_hive.specs.Separating.{MarksSeparating};
ghost use Rattle.hive_model.specs.Neighbours.{weight};
ghost use Rattle.cut_keeper.specs.Keeping.{MarksGrown, MarksShrunk, HasMask};

use crate::examining::{Site, Topped, beside, examine};
use crate::rings::only_in;
use arcs::arcs;
use euler::is_separating_on;
use hive_model::{Board, Dir, Piece, Place};
use one_hive::{Marks, Steps, mark_separating};
use std::sync::ledger::Ledger;

/// Sets the mark of a piece by the place that it stands on, if it is on the board. The board is one
/// hive without holes.
fn mark_by_arcs<B: Board>(marks: &mut Marks, board: &B, piece: Piece)
    requires one_hive { OneHive (B.stacks board.now) }
    requires number { euler_number (B.stacks board.now) ≡ pos 1 }
    ensures here { (p : AnyPlace) → top_at (B.stacks board.now) p ≡ Some piece
        → IsSet marks.new piece ↔ IsSeparating (B.stacks board.now) p }
    ensures others { (x : ℕ) → x ≢ piece → IsSet marks.new x ↔ IsSet marks.old x }
{
    if let Some(spot) = board.spot(piece) {
        let is_separating = is_separating_on(board, spot.place);
        marks.give(piece, is_separating);
    }
}

/// Corrects all marks for a board that is one hive without holes.
fn mark_all_by_arcs<B: Board>(marks: &mut Marks, board: &B)
    requires one_hive { OneHive (B.stacks board.now) }
    requires number { euler_number (B.stacks board.now) ≡ pos 1 }
    ensures { MarksSeparating (B.stacks board.now) marks.new }
{
    board.lemma_board();
    for x in 0..28u8 {
        mark_by_arcs(marks, board, Piece::at(x));
    }
}

/// Corrects all marks for a board that is one hive and whose Euler's number is given. It makes one
/// walk if that is not 1.
fn mark_all<B: Board, L: Ledger>(marks: &mut Marks, board: &B, number: i32, steps: &mut Steps<L>)
    requires one_hive { OneHive (B.stacks board.now) }
    requires number { number ≡ euler_number (B.stacks board.now) }
    ensures marks { MarksSeparating (B.stacks board.now) marks.new }
    ensures none { number ≡ pos 1 → steps.new ≡ steps.old }
    ensures step { steps.new ≤ steps.old + 1 }
{
    if number == 1 {
        mark_all_by_arcs(marks, board);
        return;
    }
    *marks = mark_separating(board, steps);
}

/// Gives one piece the mark of another.
fn hand_on(marks: &mut Marks, from: Piece, to: Piece)
    ensures to { IsSet marks.new to ↔ IsSet marks.old from }
    ensures others { (x : ℕ) → x ≢ to → IsSet marks.new x ↔ IsSet marks.old x }
{
    let is_set = marks.is_set(from);
    marks.give(to, is_set);
}

/// A piece was put on a place that was occupied. Only that place has another top piece.
fn added_above<B: Board>(marks: &mut Marks, board: &B, piece: Piece, place: Place)
    requires sound { IsBoard (B.stacks board.now) }
    requires grown { MarksGrown marks.old (B.stacks board.now) piece place }
    requires high { 1 < height_at (B.stacks board.now) place }
    ensures { MarksSeparating (B.stacks board.now) marks.new }
{
    if let Some(below) = board.under(piece) {
        hand_on(marks, below, piece);
    }
}

/// A piece was put beside one occupied place only. That place joins it to the others, if there are
/// any.
fn added_beside_one<B: Board>(marks: &mut Marks, board: &B, piece: Piece, place: Place, dir: Dir)
    requires sound { IsBoard (B.stacks board.now) }
    requires grown { MarksGrown marks.old (B.stacks board.now) piece place }
    requires low { height_at (B.stacks board.now) place ≤ 1 }
    requires unmarked { IsSet marks.old piece → ⊥ }
    requires ring { HasMask (B.stacks board.now) place (weight dir) }
    requires arc { OneArc (is_occupied (B.stacks board.now)) place }
    ensures { MarksSeparating (B.stacks board.now) marks.new }
{
    let next = place.step(dir);
    if let Some(top) = board.top(next) {
        let is_cut = only_in(board.neighbours(next)).is_none();
        marks.give(top, is_cut);
    }
}

/// A piece was put on a place whose occupied neighbours form one arc.
fn added_beside<B: Board, L: Ledger>(
    marks: &mut Marks,
    board: &B,
    piece: Piece,
    site: Site,
    steps: &mut Steps<L>,
)
    requires sound { IsBoard (B.stacks board.now) }
    requires grown { MarksGrown marks.old (B.stacks board.now) piece site.place }
    requires low { height_at (B.stacks board.now) site.place ≤ 1 }
    requires ring { HasMask (B.stacks board.now) site.place site.mask }
    requires number { site.number ≡ euler_number (B.stacks board.now) }
    requires arc { OneArc (is_occupied (B.stacks board.now)) site.place }
    ensures marks { MarksSeparating (B.stacks board.now) marks.new }
    ensures none { site.number ≡ pos 1 → steps.new ≡ steps.old }
    ensures steps { steps.new ≤ steps.old + 3 }
{
    marks.give(piece, false);
    match only_in(site.mask) {
        Some(dir) => added_beside_one(marks, board, piece, site.place, dir),
        None => beside(marks, board, site, true, steps),
    }
}

/// Updates the marks after a piece was put on top of the place: they were right for the board
/// before, and then are for this board.
pub(crate) fn added<B: Board, L: Ledger>(
    marks: &mut Marks,
    board: &B,
    number: i32,
    piece: Piece,
    place: Place,
    steps: &mut Steps<L>,
)
    requires grown { MarksGrown marks.old (B.stacks board.now) piece place }
    requires number { number ≡ euler_number (B.stacks board.now) }
    requires within { IsOnTheMap place }
    ensures marks { MarksSeparating (B.stacks board.now) marks.new }
    ensures above { 1 < height_at (B.stacks board.now) place → steps.new ≡ steps.old }
    ensures none { number ≡ pos 1 → steps.new ≡ steps.old }
    ensures few { steps.new ≤ steps.old + 3 }
{
    board.lemma_board();
    if board.height(place) > 1 {
        added_above(marks, board, piece, place);
        return;
    }
    let mask = board.neighbours(place);
    if arcs(mask) == 1 {
        let site = Site {
            place,
            mask,
            number,
        };
        added_beside(marks, board, piece, site, steps);
        return;
    }
    mark_all(marks, board, number, steps);
}

/// A piece was taken from a place that is still occupied. Only that place has another top piece.
fn removed_above<B: Board>(marks: &mut Marks, board: &B, piece: Piece, place: Place, top: Piece)
    requires sound { IsBoard (B.stacks board.now) }
    requires shrunk { MarksShrunk marks.old (B.stacks board.now) piece place }
    requires top { top_at (B.stacks board.now) place ≡ Some top }
    ensures { MarksSeparating (B.stacks board.now) marks.new }
{
    hand_on(marks, piece, top);
}

/// A piece was taken that stood beside one occupied place only.
fn removed_beside_one<B: Board, L: Ledger>(
    marks: &mut Marks,
    board: &B,
    piece: Piece,
    site: Site,
    dir: Dir,
    steps: &mut Steps<L>,
)
    requires sound { IsBoard (B.stacks board.now) }
    requires shrunk { MarksShrunk marks.old (B.stacks board.now) piece site.place }
    requires empty { height_at (B.stacks board.now) site.place ≡ 0 }
    requires ring { HasMask (B.stacks board.now) site.place (weight dir) }
    requires number { site.number ≡ euler_number (B.stacks board.now) }
    requires arc { OneArc (is_occupied (B.stacks board.now)) site.place }
    ensures marks { MarksSeparating (B.stacks board.now) marks.new }
    ensures none { site.number ≡ pos 1 → steps.new ≡ steps.old }
    ensures steps { steps.new ≤ steps.old + 1 }
{
    let place = site.place.step(dir);
    if let Some(top) = board.top(place) {
        examine(marks, board, site.number, Topped { place, top }, steps);
    }
}

/// A piece was taken from a place whose occupied neighbours form one arc.
fn removed_beside<B: Board, L: Ledger>(
    marks: &mut Marks,
    board: &B,
    piece: Piece,
    site: Site,
    steps: &mut Steps<L>,
)
    requires sound { IsBoard (B.stacks board.now) }
    requires shrunk { MarksShrunk marks.old (B.stacks board.now) piece site.place }
    requires empty { height_at (B.stacks board.now) site.place ≡ 0 }
    requires ring { HasMask (B.stacks board.now) site.place site.mask }
    requires number { site.number ≡ euler_number (B.stacks board.now) }
    requires arc { OneArc (is_occupied (B.stacks board.now)) site.place }
    ensures marks { MarksSeparating (B.stacks board.now) marks.new }
    ensures none { site.number ≡ pos 1 → steps.new ≡ steps.old }
    ensures steps { steps.new ≤ steps.old + 3 }
{
    match only_in(site.mask) {
        Some(dir) => removed_beside_one(marks, board, piece, site, dir, steps),
        None => beside(marks, board, site, false, steps),
    }
}

/// Updates the marks after a piece was taken from the top of the place: they were right for the
/// board before, and then are for this board.
pub(crate) fn removed<B: Board, L: Ledger>(
    marks: &mut Marks,
    board: &B,
    number: i32,
    piece: Piece,
    place: Place,
    steps: &mut Steps<L>,
)
    requires shrunk { MarksShrunk marks.old (B.stacks board.now) piece place }
    requires number { number ≡ euler_number (B.stacks board.now) }
    requires within { IsOnTheMap place }
    ensures marks { MarksSeparating (B.stacks board.now) marks.new }
    ensures above { 0 < height_at (B.stacks board.now) place → steps.new ≡ steps.old }
    ensures none { number ≡ pos 1 → steps.new ≡ steps.old }
    ensures few { steps.new ≤ steps.old + 3 }
{
    board.lemma_board();
    if let Some(top) = board.top(place) {
        removed_above(marks, board, piece, place, top);
        return;
    }
    let mask = board.neighbours(place);
    if arcs(mask) == 1 {
        let site = Site {
            place,
            mask,
            number,
        };
        removed_beside(marks, board, piece, site, steps);
        return;
    }
    mark_all(marks, board, number, steps);
}
