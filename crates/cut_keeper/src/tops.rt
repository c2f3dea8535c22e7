//! Updates two kinds of marks after one piece was put on a place or taken from it: those of the
//! pieces on top of places, and those of the pieces that stand on others.

ghost use Rattle.hive_model.specs.Boards.{IsBoard};
ghost use Rattle.cut_keeper.specs.Keeping.{
  MarksTops,
  MarksHigh,
  TopsGrown,
  TopsShrunk,
  HighGrown,
};

use hive_model::{Board, Piece, Place};
use one_hive::Marks;

/// After the piece was put on top of the place, marks it and unmarks the piece that it covers.
pub(crate) fn top_added<B: Board>(tops: &mut Marks, board: &B, piece: Piece, place: Place)
    requires sound { IsBoard (B.stacks board.now) }
    requires grown { TopsGrown tops.old (B.stacks board.now) piece place }
    ensures { MarksTops (B.stacks board.now) tops.new }
{
    tops.give(piece, true);
    if let Some(below) = board.under(piece) {
        tops.give(below, false);
    }
}

/// After the piece was taken from the top of the place, unmarks it and marks the piece that it
/// covered.
pub(crate) fn top_removed<B: Board>(tops: &mut Marks, board: &B, piece: Piece, place: Place)
    requires sound { IsBoard (B.stacks board.now) }
    requires shrunk { TopsShrunk tops.old (B.stacks board.now) piece place }
    ensures { MarksTops (B.stacks board.now) tops.new }
{
    tops.give(piece, false);
    if let Some(top) = board.top(place) {
        tops.give(top, true);
    }
}

/// After the piece was put on top of the place, marks it if it stands on another.
pub(crate) fn high_added<B: Board>(high: &mut Marks, board: &B, piece: Piece, place: Place)
    requires sound { IsBoard (B.stacks board.now) }
    requires grown { HighGrown high.old (B.stacks board.now) piece place }
    ensures { MarksHigh (B.stacks board.now) high.new }
{
    let is_high = board.height(place) > 1;
    high.give(piece, is_high);
}
