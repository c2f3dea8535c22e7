//! A symmetry of one position.

ghost use Rattle.std.specs.Prelude.{◌≡◌};
ghost use Rattle.hive_model.specs.Places.{IsWithin};
ghost use Rattle.symmetry.specs.Alike.{move_by, IsPlaced};

use crate::keys::moved;
use crate::symmetry::Symmetry;
use hive_model::{Move, Place};

/// A symmetry of the plane and a shift, by which a position is alike to itself.
#[derive(Clone, Copy)]
pub struct OwnSymmetry {
    pub(crate) symmetry: Symmetry,
    pub(crate) shift: Place,
    ghost within: { IsWithin 40000 shift },
}

impl Default for OwnSymmetry {
    /// The identity.
    fn default() -> OwnSymmetry {
        OwnSymmetry {
            symmetry: Symmetry::at(0),
            shift: Place { q: 0, r: 0 },
        }
    }
}

impl OwnSymmetry {
    /// The image of a move: the same piece goes to the image of the place. The image of a pass is
    /// the pass.
    pub fn image_of(&self, m: Move) -> Move
        requires { IsPlaced m }
        ensures { result ≡ move_by self.now.symmetry self.now.shift m }
    {
        match m {
            Move::Pass => Move::Pass,
            Move::To { piece, place } => Move::To {
                piece,
                place: moved(self.symmetry.place(place), self.shift),
            },
        }
    }
}
