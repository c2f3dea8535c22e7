//! Euler's number of a board, computed, and the test of a separating place that it allows.

ghost use Rattle.std.specs.Prelude.{◌≡◌, ◌↔◌, ◌<◌, ◌≤ℤ◌, pos, negsuc, IsTrue, IfSome, is_some};
ghost use Rattle.hive_model.specs.Boards.{is_occupied, spot_of};
ghost use Rattle.hive_model.specs.Hive.{OneHive, IsSeparating};
ghost use Rattle.hive_model.specs.Places.{IsWithin};
ghost use Rattle.euler.specs.Euler.{euler_number};
ghost use Rattle.euler.specs.Counting.{worth, counted, TellsCuts, TellsBeside};

use arcs::arcs;
use hive_model::{Board, Piece, Place};

/// What a place counts, by the mask of its occupied neighbours.
fn worth(mask: u8) -> i32
    requires { mask < 64 }
    ensures worth { result ≡ worth mask }
    ensures low { negsuc 0 ≤ℤ result }
    ensures high { result ≤ℤ pos 1 }
{
    1 - arcs(mask & 7) as i32
}

/// What a piece counts: what its place does if it is on the ground, and 0 otherwise.
fn counted<B: Board>(board: &B, piece: Piece) -> i32
    ensures counted { result ≡ counted (B.stacks board.now) (spot_of (B.stacks board.now) piece) }
    ensures low { negsuc 0 ≤ℤ result }
    ensures high { result ≤ℤ pos 1 }
{
    let Some(spot) = board.spot(piece) else {
        return 0;
    };
    if spot.level > 0 {
        return 0;
    }
    worth(board.neighbours(spot.place))
}

/// Euler's number of the board: its occupied places, minus their pairs of neighbours, plus their
/// triangles.
pub fn euler_number<B: Board>(board: &B) -> i32
    ensures { result ≡ euler_number (B.stacks board.now) }
{
    board.lemma_board();
    let mut number = 0i32;
    for x in 0..28u8 {
        number += counted(board, Piece::at(x));
    }
    number
}

/// Whether an occupied place of one hive with Euler's number 1 is separating, by the mask of its
/// occupied neighbours: they form two or more arcs.
pub fn is_separating_by_arcs(mask: u8) -> bool
    requires { mask < 64 }
    ensures { TellsCuts mask result }
{
    arcs(mask) > 1
}

/// Whether an occupied place of one hive with Euler's number 1 is separating. It reads the
/// neighbours of that place only.
pub fn is_separating_on<B: Board>(board: &B, place: Place) -> bool
    requires one_hive { OneHive (B.stacks board.now) }
    requires number { euler_number (B.stacks board.now) ≡ pos 1 }
    requires occupied { IsTrue (is_occupied (B.stacks board.now) place) }
    requires within { IsWithin 10000 place }
    ensures { IsTrue result ↔ IsSeparating (B.stacks board.now) place }
{
    board.lemma_board();
    is_separating_by_arcs(board.neighbours(place))
}

/// Whether an occupied place of one hive with this Euler's number is separating, by the mask of its
/// occupied neighbours. It is not if they form fewer than two arcs. It is if the arcs and the
/// number add up to 3 or more. If the number is 1, this decides every place. If it is less, the
/// answer for the other places is `None`.
pub fn told_by_arcs(mask: u8, number: i32) -> Option<bool>
    requires { mask < 64 }
    ensures told { IfSome result (TellsBeside mask number) }
    ensures whole { number ≡ pos 1 → IsTrue (is_some result) }
{
    let many = arcs(mask) as i32;
    if many < 2 {
        return Some(false);
    }
    if number >= 3 - many {
        return Some(true);
    }
    None
}
