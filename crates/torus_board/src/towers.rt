//! The heights and top pieces of places, by their cells.

ghost use Rattle.std.specs.Prelude.{◌≡◌, ◌*◌, ◌<◌, ◌≤◌, Some, length, slice_get};
ghost use Rattle.hive_model.specs.Boards.{Stacks, height_at, top_at};
ghost use Rattle.torus_board.specs.Grid.{HasTowers, tower_at};

use crate::index_in;
use hive_model::{Piece, Place};

/// The place that a cell was written for last, the number of pieces on it, and the top one.
#[derive(Clone, Copy)]
pub struct Tower {
    pub place: Place,
    pub height: u8,
    pub top: Option<Piece>,
}

/// The tower of a cell.
fn cell_in(towers: &[Tower], index: usize) -> Tower
    requires { index < length towers.now }
    ensures { slice_get towers.now index ≡ Some result }
{
    towers[index]
}

/// The tower of a place, in one read: an empty one where its cell was written for another.
pub fn tower_in(towers: &[Tower], side: usize, place: Place) -> Tower
    requires small { side ≤ 128 }
    requires some { 0 < side }
    requires many { length towers.now ≡ side * side }
    ensures { (b : Stacks) → HasTowers side b towers.now → result ≡ tower_at b place }
{
    let tower = cell_in(towers, index_in(side, place));
    if tower.place.is(place) {
        tower
    } else {
        Tower {
            place,
            height: 0,
            top: None,
        }
    }
}

/// The number of pieces on the place.
pub fn height_in(towers: &[Tower], side: usize, place: Place) -> u8
    requires small { side ≤ 128 }
    requires some { 0 < side }
    requires many { length towers.now ≡ side * side }
    ensures { (b : Stacks) → HasTowers side b towers.now → result ≡ height_at b place }
{
    tower_in(towers, side, place).height
}

/// The top piece of the place.
pub fn top_in(towers: &[Tower], side: usize, place: Place) -> Option<Piece>
    requires small { side ≤ 128 }
    requires some { 0 < side }
    requires many { length towers.now ≡ side * side }
    ensures { (b : Stacks) → HasTowers side b towers.now → result ≡ top_at b place }
{
    tower_in(towers, side, place).top
}
