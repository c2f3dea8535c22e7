//! Whether the positions of two keys are alike.

ghost use Rattle.std.specs.Prelude.{◌≡◌, ◌<◌, IsTrue, IfSome, Some};
ghost use Rattle.hive_model.specs.Places.{IsWithin};
ghost use Rattle.symmetry.specs.Images.{shifted};
ghost use Rattle.symmetry.specs.Shifts.{AreInPlane, IsShift, HasSameTurn, between, IsAsked};
ghost use Rattle.symmetry.specs.Shifts.{is_taken, AreTaken};

use crate::symmetry::Symmetry;
use hive_model::{Key, Piece, Place, Spot};

/// The shift by which the position of one key is alike to that of the other by this symmetry, if
/// they are alike. It is the only one. No coordinate of it exceeds 40,000 in absolute value.
pub fn alike(from: &Key, to: &Key, symmetry: Symmetry) -> Option<Place>
    ensures shift { IsShift result from.now to.now symmetry }
    ensures within { IfSome result (λ t. IsWithin 40000 t) }
{
    if !has_same_turn(from, to) {
        return None;
    }
    if !are_in_plane(from) {
        return None;
    }
    if !are_in_plane(to) {
        return None;
    }
    let Some(shift) = shift_asked(from, to, symmetry) else {
        return None;
    };
    if are_taken(from, to, symmetry, shift) {
        Some(shift)
    } else {
        None
    }
}

/// Whether all pieces are in the plane. In the key of a position they are. The sums of coordinates
/// below rest on it.
fn are_in_plane(key: &Key) -> bool
    ensures inside { IsTrue result → AreInPlane key.now }
    ensures outside { AreInPlane key.now → IsTrue result }
{
    for index in 0..28u8 {
        if let Some(spot) = key.spot(Piece::at(index)) {
            if !is_in_plane(spot.place) {
                return false;
            }
        }
    }
    true
}

/// Whether no coordinate exceeds 9,000 in absolute value.
fn is_in_plane(place: Place) -> bool
    ensures inside { IsTrue result → IsWithin 9000 place }
    ensures outside { IsWithin 9000 place → IsTrue result }
{
    -9000 <= place.q && place.q <= 9000 && -9000 <= place.r && place.r <= 9000
}

/// Whether type, side, resting piece and turn are the same.
fn has_same_turn(from: &Key, to: &Key) -> bool
    ensures same { IsTrue result → HasSameTurn from.now to.now }
    ensures other { HasSameTurn from.now to.now → IsTrue result }
{
    to.game_type() == from.game_type()
        && to.side() == from.side()
        && to.rest() == from.rest()
        && to.turn() == from.turn()
}

/// The shift that the first piece in play determines, if the other key has it in play. If no piece
/// is in play, the shift is zero.
fn shift_asked(from: &Key, to: &Key, symmetry: Symmetry) -> Option<Place>
    requires from { AreInPlane from.now }
    requires to { AreInPlane to.now }
    ensures asked { IsAsked from.now to.now symmetry result }
    ensures within { IfSome result (λ t. IsWithin 40000 t) }
{
    for index in 0..28u8 {
        let piece = Piece::at(index);
        if let Some(old) = from.spot(piece) {
            return match to.spot(piece) {
                Some(new) => Some(between(symmetry.place(old.place), new.place)),
                None => None,
            };
        }
    }
    Some(Place { q: 0, r: 0 })
}

/// The second place minus the first.
fn between(from: Place, to: Place) -> Place
    requires from { IsWithin 20000 from }
    requires to { IsWithin 9000 to }
    ensures between { result ≡ between from to }
    ensures within { IsWithin 40000 result }
{
    Place {
        q: to.q - from.q,
        r: to.r - from.r,
    }
}

/// Whether symmetry and shift take the spot of each piece to its spot in the other key.
fn are_taken(from: &Key, to: &Key, symmetry: Symmetry, shift: Place) -> bool
    requires from { AreInPlane from.now }
    requires shift { IsWithin 40000 shift }
    ensures all { IsTrue result → AreTaken symmetry shift from.now to.now }
    ensures some { AreTaken symmetry shift from.now to.now → IsTrue result }
{
    for index in 0..28u8 {
        let piece = Piece::at(index);
        if !is_taken(from.spot(piece), to.spot(piece), symmetry, shift) {
            return false;
        }
    }
    true
}

/// Whether symmetry and shift take the first spot to the second.
fn is_taken(from: Option<Spot>, to: Option<Spot>, symmetry: Symmetry, shift: Place) -> bool
    requires from { (s : Spot) → from ≡ Some s → IsWithin 9000 s.place }
    requires shift { IsWithin 40000 shift }
    ensures { result ≡ is_taken symmetry shift from to }
{
    match (from, to) {
        (None, None) => true,
        (Some(from), Some(to)) => {
            from.level == to.level && moved(symmetry.place(from.place), shift).is(to.place)
        }
        _ => false,
    }
}

/// The place plus the shift.
pub fn moved(place: Place, shift: Place) -> Place
    requires place { IsWithin 20000 place }
    requires shift { IsWithin 40000 shift }
    ensures { result ≡ shifted shift place }
{
    Place {
        q: place.q + shift.q,
        r: place.r + shift.r,
    }
}
