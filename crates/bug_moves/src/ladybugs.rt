//! The ways of a ladybug: up onto the hive, along on it, and down.

ghost use Rattle.bug_moves.specs.Ways.{DownToward, OnTop, Onward};

use crate::beetles::may_climb_amid;
use crate::ways::{Way, add_ways};
use gates::has_dir;
use hive_model::{Board, Dir, Place, PlaceList, add_place};

/// A step down to another place than that where the ladybug began.
#[derive(Clone, Copy)]
pub struct Down {
    pub start: Place,
}

impl Way for Down {
    ghost toward = { λ way b. DownToward b way.start };

    #[tactic(auto, using(crate::proofs::Gaining::climb_room))]
    fn add<B: Board>(&self, board: &B, from: Place, dir: Dir, taken: u8, out: &mut PlaceList) {
        if has_dir(taken, dir) {
            return;
        }
        let to = from.step(dir);
        if to.is(self.start) {
            return;
        }
        if !may_climb_amid(board, from, dir, to, taken) {
            return;
        }
        add_place(out, to);
    }
}

/// A step up onto the hive or along on it, and then what is left of the way.
#[derive(Clone, Copy)]
pub struct Climb<W> {
    pub then: W,
}

impl<W: Way> Way for Climb<W> {
    ghost toward = { λ way b p. Onward (OnTop b p) (W.toward way.then b) p };

    #[tactic(auto, using(crate::proofs::Gaining::climb_within))]
    fn add<B: Board>(&self, board: &B, from: Place, dir: Dir, taken: u8, out: &mut PlaceList) {
        if !has_dir(taken, dir) {
            return;
        }
        let to = from.step(dir);
        if may_climb_amid(board, from, dir, to, taken) {
            add_ways(&self.then, board, to, out);
        }
    }
}
