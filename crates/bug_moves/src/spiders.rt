//! The ways of a spider: three steps on the ground over four places.

ghost use Rattle.bug_moves.specs.Ways.{FirstToward, SecondToward, ThirdToward};

use crate::ways::{GroundWay, add_slides};
use gates::has_dir;
use hive_model::{Board, Dir, Place, PlaceList, add_place};

/// A third step, which does not go back to where the spider was.
#[derive(Clone, Copy)]
struct Third {
    start: Place,
    first: Place,
}

impl GroundWay for Third {
    ghost toward = { λ way b. ThirdToward b way.start way.first };

    #[tactic(auto, using(crate::proofs::Gaining::ground_room))]
    fn add<B: Board>(&self, board: &B, from: Place, dir: Dir, slides: u8, out: &mut PlaceList) {
        if !has_dir(slides, dir) {
            return;
        }
        let to = from.step(dir);
        if to.is(self.start) || to.is(self.first) {
            return;
        }
        add_place(out, to);
    }
}

/// A second step, which does not go back to where the spider was, and then the third.
#[derive(Clone, Copy)]
struct Second {
    start: Place,
}

impl GroundWay for Second {
    ghost toward = { λ way b. SecondToward b way.start };

    fn add<B: Board>(&self, board: &B, from: Place, dir: Dir, slides: u8, out: &mut PlaceList) {
        if !has_dir(slides, dir) {
            return;
        }
        let to = from.step(dir);
        if to.is(self.start) {
            return;
        }
        let third = Third {
            start: self.start,
            first: from,
        };
        add_slides(&third, board, to, out);
    }
}

/// Three steps, none of which goes back to where the spider was.
#[derive(Clone, Copy)]
pub struct First;

impl GroundWay for First {
    ghost toward = { λ _ b. FirstToward b };

    fn add<B: Board>(&self, board: &B, from: Place, dir: Dir, slides: u8, out: &mut PlaceList) {
        if has_dir(slides, dir) {
            let to = from.step(dir);
            add_slides(&Second { start: from }, board, to, out);
        }
    }
}
