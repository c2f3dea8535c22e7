//! The ground steps from a place, all six directions at once.

ghost use Rattle.std.specs.Prelude.{◌≡◌, ◌≢◌, ◌<◌, Bool, IsTrue, false};
ghost use Rattle.hive_model.specs.declared.places.Dir.{Dir};
ghost use Rattle.hive_model.specs.Boards.{is_occupied};
ghost use Rattle.hive_model.specs.Neighbours.{ring_mask};
ghost use Rattle.hive_model.specs.Places.{IsOnTheMap};
ghost use Rattle.gates.specs.Slides.{AreSlides, has_dir, slides};

use hive_model::{Board, Dir, Place, is_occupied};

/// The directions of ground steps from an empty place, for each mask of its occupied neighbours.
static SLIDES: [u8; 64] = [
    0, 34, 5, 36, 10, 40, 9, 40, 20, 54, 17, 48, 18, 48, 17, 48, 40, 10, 45, 12, 34, 0, 33, 0, 36,
    6, 33, 0, 34, 0, 33, 0, 17, 18, 20, 20, 27, 24, 24, 24, 5, 6, 0, 0, 3, 0, 0, 0, 9, 10, 12, 12,
    3, 0, 0, 0, 5, 6, 0, 0, 3, 0, 0, 0,
];

/// The directions in the order of their bits.
static DIRS: [Dir; 6] = Dir::ALL;

/// Whether a mask has the bit of a direction.
pub fn has_dir(mask: u8, dir: Dir) -> bool
    ensures { result ≡ has_dir mask dir }
{
    mask & dir.bit() > 0
}

/// The first direction that a mask has, in cyclic order from east on, and the mask without it.
pub fn split_first(mask: u8) -> (Dir, u8)
    requires some { 0 < mask }
    requires few { mask < 64 }
    ensures has { IsTrue (has_dir mask result.0) }
    ensures gone { has_dir result.1 result.0 ≡ false }
    ensures others { (d : Dir) → d ≢ result.0 → has_dir result.1 d ≡ has_dir mask d }
    ensures less { result.1 < mask }
{
    let first = DIRS[mask.trailing_zeros() as usize];
    (first, mask & (mask - 1))
}

/// The directions of ground steps from an empty place that has these occupied neighbours.
fn slides_amid(mask: u8) -> u8
    requires { mask < 64 }
    ensures slides { (r : Dir → Bool) → mask ≡ ring_mask r → (d : Dir)
        → has_dir result d ≡ slides r d }
    ensures bound { result < 64 }
{
    SLIDES[mask as usize]
}

/// The directions of ground steps from an empty place, as a mask: the bits of the directions. The
/// board is the one without the moving piece.
pub fn slides_from_empty<B: Board>(board: &B, from: Place) -> u8
    requires empty { is_occupied (B.stacks board.now) from ≡ false }
    requires within { IsOnTheMap from }
    ensures slides { AreSlides (B.stacks board.now) from result }
    ensures bound { result < 64 }
{
    slides_amid(board.neighbours(from))
}

/// The directions of ground steps from a place, as a mask. From an occupied place there is none.
pub fn slides_from<B: Board>(board: &B, from: Place) -> u8
    requires within { IsOnTheMap from }
    ensures slides { AreSlides (B.stacks board.now) from result }
    ensures bound { result < 64 }
{
    if is_occupied(board, from) {
        return 0;
    }
    slides_from_empty(board, from)
}
