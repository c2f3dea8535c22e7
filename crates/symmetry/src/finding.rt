//! The symmetries of one position, found by its key.

ghost use Rattle.std.specs.Prelude.{◌+◌, ◌<◌, ◌≤◌, length};
ghost use Rattle.symmetry.specs.Own.{AreOwn, AreOwnBelow};

use crate::keys::alike;
use crate::own::OwnSymmetry;
use crate::symmetry::Symmetry;
use arrayvec::ArrayVec;
use hive_model::Key;

/// The symmetries of one position, without the identity. Most positions have none.
pub type OwnSymmetries = ArrayVec<OwnSymmetry, 11>;

/// The symmetries, except the identity, by which the position of the key is alike to itself. The
/// image of a legal move by one of them is legal and is followed by as many lists of moves.
pub fn own_symmetries(key: &Key) -> OwnSymmetries
    ensures { AreOwn key.now result.items }
{
    let mut own = OwnSymmetries::new();
    for index in 1..12u8 {
        add_own(&mut own, key, index);
    }
    own
}

/// Adds the symmetry with this number, if the position of the key is alike to itself by it.
fn add_own(own: &mut OwnSymmetries, key: &Key, index: u8)
    requires number { 0 < index }
    requires symmetry { index < 12 }
    requires room { length own.old.items < index }
    requires own { AreOwnBelow index key.now own.old.items }
    ensures room { length own.new.items ≤ index }
    ensures own { AreOwnBelow (index + 1) key.now own.new.items }
{
    let symmetry = Symmetry::at(index);
    let Some(shift) = alike(key, key, symmetry) else {
        return;
    };
    own.push(OwnSymmetry { symmetry, shift });
}
