//! Ways that may begin in any of the six directions.

ghost use Rattle.std.specs.Prelude.{◌≡◌};
ghost use Rattle.hive_model.specs.declared.places.Dir.{Dir};
ghost use Rattle.hive_model.specs.declared.places.Place.{Place};
ghost use Rattle.hive_model.specs.Boards.{Stacks, is_occupied};
ghost use Rattle.hive_model.specs.Neighbours.{ring, ring_mask};
ghost use Rattle.hive_model.specs.Places.{IsOnTheMap};
ghost use Rattle.bug_moves.specs.Adding.{IsAround, Gains};
ghost use Rattle.bug_moves.specs.Ways.{InSome};
ghost use Rattle.gates.specs.Slides.{AreSlides};

use gates::slides_from;
use hive_model::{Board, Dir, Place, PlaceList};

/// A way of a bug, or the rest of one.
pub trait Way {
    /// Where it leads from a place if it begins in this direction.
    ghost toward: { Self → Stacks → Place → Dir → Place → Type 0 };

    /// Adds where it leads if it begins in this direction. The mask of the occupied neighbours of
    /// the place is given.
    fn add<B: Board>(&self, board: &B, from: Place, dir: Dir, taken: u8, out: &mut PlaceList)
        requires within { IsOnTheMap from }
        requires list { IsAround (B.stacks board.now) out.old.items }
        requires taken { taken ≡ ring_mask (ring (is_occupied (B.stacks board.now)) from) }
        ensures { Gains (B.stacks board.now) (toward self.now (B.stacks board.now) from dir)
            out.old.items out.new.items };
}

/// Adds where a way leads, in whatever direction it begins.
#[tactic(auto, using(hive_model::proofs::PlaceLemmas::wider))]
pub fn add_ways<W: Way, B: Board>(way: &W, board: &B, from: Place, out: &mut PlaceList)
    requires within { IsOnTheMap from }
    requires list { IsAround (B.stacks board.now) out.old.items }
    ensures { Gains (B.stacks board.now)
        (InSome (W.toward way.now (B.stacks board.now) from)) out.old.items out.new.items }
{
    let taken = board.neighbours(from);
    for dir in Dir::ALL {
        way.add(board, from, dir, taken, out);
    }
}

/// A way of a bug that may begin on the ground, or the rest of one.
pub trait GroundWay {
    /// Where it leads from a place if it begins in this direction.
    ghost toward: { Self → Stacks → Place → Dir → Place → Type 0 };

    /// Adds where it leads if it begins in this direction. The directions of the ground steps from
    /// the place are given.
    fn add<B: Board>(&self, board: &B, from: Place, dir: Dir, slides: u8, out: &mut PlaceList)
        requires within { IsOnTheMap from }
        requires list { IsAround (B.stacks board.now) out.old.items }
        requires slides { AreSlides (B.stacks board.now) from slides }
        ensures { Gains (B.stacks board.now) (toward self.now (B.stacks board.now) from dir)
            out.old.items out.new.items };
}

/// Adds where such a way leads, in whatever direction it begins.
pub fn add_slides<W: GroundWay, B: Board>(way: &W, board: &B, from: Place, out: &mut PlaceList)
    requires within { IsOnTheMap from }
    requires list { IsAround (B.stacks board.now) out.old.items }
    ensures { Gains (B.stacks board.now)
        (InSome (W.toward way.now (B.stacks board.now) from)) out.old.items out.new.items }
{
    let slides = slides_from(board, from);
    for dir in Dir::ALL {
        way.add(board, from, dir, slides, out);
    }
}
