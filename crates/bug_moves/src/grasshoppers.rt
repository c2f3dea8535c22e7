//! The hops of a grasshopper.

ghost use Rattle.bug_moves.specs.Ways.{HopAlong};

use crate::ways::Way;
use gates::has_dir;
use hive_model::{Board, Dir, Place, PlaceList, add_place, is_occupied};

/// A hop to the empty place behind a row of pieces that begins at the neighbour, if a piece stands
/// there.
#[derive(Clone, Copy)]
pub struct OverRow;

impl Way for OverRow {
    ghost toward = { λ _ b p. HopAlong b p };

    fn add<B: Board>(&self, board: &B, from: Place, dir: Dir, taken: u8, out: &mut PlaceList) {
        if !has_dir(taken, dir) {
            return;
        }
        let mut place = from.step(dir);
        let mut over = 0u16;
        'row: while is_occupied(board, place) {
            place = place.step(dir);
            over += 1;
        }
        if over > 0 {
            add_place(out, place);
        }
    }
}
