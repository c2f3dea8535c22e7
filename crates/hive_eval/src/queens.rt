//! What stands round the queens.

ghost use Rattle.std.specs.Prelude.{◌≡◌, pos, ◌≤◌, ◌≤ℤ◌, count_by};
ghost use Rattle.hive_model.specs.Boards.{is_occupied};
ghost use Rattle.hive_model.specs.Evaluation.{round_queen};
ghost use Rattle.hive_model.specs.Places.{IsWithin, step, dirs};

use hive_model::{Board, Colour, Place};

/// How many neighbours of the place are occupied.
pub fn occupied_round<B: Board>(board: &B, place: Place) -> usize
    requires { IsWithin 10000 place }
    ensures count { result ≡ count_by (λ d. is_occupied (B.stacks board.now) (step place d)) dirs }
    ensures few { result ≤ 6 }
{
    board.neighbours(place).count_ones() as usize
}

/// How many neighbours of the side's queen are occupied; 0 for a queen in hand.
pub(crate) fn occupied_round_queen<B: Board>(board: &B, side: Colour) -> i32
    ensures count { result ≡ pos (round_queen (B.stacks board.now) side) }
    ensures few { result ≤ℤ pos 6 }
{
    match board.spot(side.queen()) {
        Some(spot) => occupied_round(board, spot.place) as i32,
        None => 0,
    }
}
