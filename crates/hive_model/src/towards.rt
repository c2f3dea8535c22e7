//! The direction from one place to a neighbour.

ghost use Rattle.std.specs.Prelude.{◌≡◌, ◌≢◌, None, IfSome, IsTrue};
ghost use Rattle.hive_model.specs.declared.places.Dir.{Dir as AnyDir};
ghost use Rattle.hive_model.specs.Places.{IsWithin, step};

use crate::places::{Dir, Place};

/// Whether the places differ by more than 1 in a coordinate. Then no direction leads from one to
/// the other.
fn is_far(from: Place, to: Place) -> bool
    ensures { IsTrue result → (d : AnyDir) → step from d ≢ to }
{
    let across = to.q.abs_diff(from.q) > 1;
    let along = to.r.abs_diff(from.r) > 1;
    across | along
}

impl Place {
    /// The direction in which the other place is a neighbour of this one, if it is. Both
    /// coordinates of this one must lie between -10,000 and 10,000.
    pub fn towards(self, other: Place) -> Option<Dir>
        requires { IsWithin 10000 self }
        ensures some { IfSome result (λ d. step self d ≡ other) }
        ensures none { result ≡ None → (d : AnyDir) → step self d ≢ other }
    {
        if is_far(self, other) {
            return None;
        }
        if self.step(Dir::E).is(other) {
            return Some(Dir::E);
        }
        if self.step(Dir::NE).is(other) {
            return Some(Dir::NE);
        }
        if self.step(Dir::NW).is(other) {
            return Some(Dir::NW);
        }
        if self.step(Dir::W).is(other) {
            return Some(Dir::W);
        }
        if self.step(Dir::SW).is(other) {
            return Some(Dir::SW);
        }
        if self.step(Dir::SE).is(other) {
            return Some(Dir::SE);
        }
        None
    }
}
