//! The step of a queen and of a pillbug.

ghost use Rattle.hive_model.specs.Steps.{GroundStep};
ghost use Rattle.bug_moves.specs.Ways.{Toward};

use crate::ways::GroundWay;
use gates::has_dir;
use hive_model::{Board, Dir, Place, PlaceList, add_place};

/// One step on the ground.
#[derive(Clone, Copy)]
pub struct Slide;

impl GroundWay for Slide {
    ghost toward = { λ _ b. Toward (GroundStep b) };

    #[tactic(auto, using(crate::proofs::Gaining::ground_room))]
    fn add<B: Board>(&self, board: &B, from: Place, dir: Dir, slides: u8, out: &mut PlaceList) {
        if has_dir(slides, dir) {
            let to = from.step(dir);
            add_place(out, to);
        }
    }
}
