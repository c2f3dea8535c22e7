//! The steps of a beetle: on the ground, and over the hive.

ghost use Rattle.std.specs.Prelude.{◌≡◌, ◌↔◌, ◌⊎◌, IsTrue};
ghost use Rattle.hive_model.specs.Boards.{is_occupied};
ghost use Rattle.hive_model.specs.Neighbours.{ring, ring_mask};
ghost use Rattle.hive_model.specs.Places.{step, IsOnTheMap};
ghost use Rattle.hive_model.specs.Steps.{ClimbingStep};
ghost use Rattle.gates.specs.Slides.{AreSlides};
ghost use Rattle.bug_moves.specs.Ways.{Toward, BeetleStep};

use crate::ways::GroundWay;
use gates::{climb_amid, climb_toward, has_dir};
use hive_model::{Board, Dir, Place, PlaceList, add_place, is_occupied};

/// Whether the step in this direction is a climbing step: one of its places is occupied, and it is
/// not blocked.
pub fn may_climb<B: Board>(board: &B, from: Place, dir: Dir, to: Place) -> bool
    requires leads { to ≡ step from dir }
    requires within { IsOnTheMap from }
    ensures { IsTrue result ↔ ClimbingStep (B.stacks board.now) from to }
{
    (is_occupied(board, to) || is_occupied(board, from)) && climb_toward(board, from, dir, to)
}

/// Whether one of the places of a step is occupied. The mask of the occupied neighbours of the
/// first is given.
fn is_high<B: Board>(board: &B, from: Place, dir: Dir, to: Place, taken: u8) -> bool
    requires leads { to ≡ step from dir }
    requires taken { taken ≡ ring_mask (ring (is_occupied (B.stacks board.now)) from) }
    ensures { IsTrue result ↔ (IsTrue (is_occupied (B.stacks board.now) from)
        ⊎ IsTrue (is_occupied (B.stacks board.now) to)) }
{
    if has_dir(taken, dir) {
        return true;
    }
    is_occupied(board, from)
}

/// `may_climb`, where the mask of the occupied neighbours of the place is at hand.
pub fn may_climb_amid<B: Board>(board: &B, from: Place, dir: Dir, to: Place, taken: u8) -> bool
    requires leads { to ≡ step from dir }
    requires within { IsOnTheMap from }
    requires taken { taken ≡ ring_mask (ring (is_occupied (B.stacks board.now)) from) }
    ensures { IsTrue result ↔ ClimbingStep (B.stacks board.now) from to }
{
    if !is_high(board, from, dir, to, taken) {
        return false;
    }
    climb_amid(board, from, dir, to, taken)
}

/// Whether a beetle makes the step in this direction. The directions of the ground steps are given.
pub fn may_creep<B: Board>(board: &B, from: Place, dir: Dir, to: Place, slides: u8) -> bool
    requires leads { to ≡ step from dir }
    requires within { IsOnTheMap from }
    requires slides { AreSlides (B.stacks board.now) from slides }
    ensures { IsTrue result ↔ BeetleStep (B.stacks board.now) from to }
{
    has_dir(slides, dir) || may_climb(board, from, dir, to)
}

/// One step of a beetle.
#[derive(Clone, Copy)]
pub struct Creep;

impl GroundWay for Creep {
    ghost toward = { λ _ b. Toward (BeetleStep b) };

    fn add<B: Board>(&self, board: &B, from: Place, dir: Dir, slides: u8, out: &mut PlaceList) {
        let place = from.step(dir);
        if may_creep(board, from, dir, place, slides) {
            add_place(out, place);
        }
    }
}
