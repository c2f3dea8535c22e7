//! Steps up, along and down, where it is known which neighbours are occupied.

ghost use Rattle.std.specs.Prelude.{◌≡◌, ◌↔◌, IsTrue};
ghost use Rattle.hive_model.specs.Boards.{is_occupied};
ghost use Rattle.hive_model.specs.Neighbours.{ring, ring_mask};
ghost use Rattle.hive_model.specs.Places.{step, IsOnTheMap};
ghost use Rattle.hive_model.specs.Steps.{FreeStep};

use crate::climb_toward;
use crate::slides::has_dir;
use hive_model::{Board, Dir, Place};

/// Whether the step in this direction is not blocked, where the mask of the occupied neighbours is
/// at hand. Heights are asked for only where both common neighbours are occupied.
pub fn climb_amid<B: Board>(board: &B, from: Place, dir: Dir, to: Place, taken: u8) -> bool
    requires leads { to ≡ step from dir }
    requires within { IsOnTheMap from }
    requires taken { taken ≡ ring_mask (ring (is_occupied (B.stacks board.now)) from) }
    ensures { IsTrue result ↔ FreeStep (B.stacks board.now) from to }
{
    let first = dir.before();
    if !has_dir(taken, first) {
        return true;
    }
    let second = dir.after();
    if !has_dir(taken, second) {
        return true;
    }
    climb_toward(board, from, dir, to)
}
