//! Quiet places.

ghost use Rattle.std.specs.Prelude.{◌≡◌, ◌≢◌, ◌<◌, false, IfSome, IsTrue};
ghost use Rattle.cut_keeper.specs.Rings.{is_suspect};
ghost use Rattle.hive_model.specs.declared.places.Place.{Place as AnyPlace};
ghost use Rattle.hive_model.specs.declared.places.Dir.{Dir as AnyDir};
ghost use Rattle.hive_model.specs.Boards.{Stacks, is_occupied};
ghost use Rattle.hive_model.specs.Neighbours.{ring, ring_mask};
ghost use Rattle.hive_model.specs.Places.{IsWithin, step};
ghost use Rattle.quiet_reply.specs.Quiet.{IsApart, IsBesidePair, IsQuiet};

use arcs::arcs;
use cut_keeper::{is_suspect, only_in};
use hand_rules::may_place;
use hive_model::{Board, Colour, Dir, Piece, Place};

/// Whether no coordinate of the place exceeds 9,000 in absolute value.
fn is_inside(place: Place) -> bool
    ensures { IsTrue result → IsWithin 9000 place }
{
    place.q >= -9000 && place.q <= 9000 && place.r >= -9000 && place.r <= 9000
}

/// Whether none of these neighbours lies between others.
fn all_are_ends(mask: u8) -> bool
    requires { mask < 64 }
    ensures { (b : Stacks) (p : AnyPlace) → mask ≡ ring_mask (ring (is_occupied b) p)
        → IsTrue result → (d : AnyDir) → is_suspect (ring (is_occupied b) p) d ≡ false }
{
    if is_suspect(mask, Dir::E) {
        return false;
    }
    if is_suspect(mask, Dir::NE) {
        return false;
    }
    if is_suspect(mask, Dir::NW) {
        return false;
    }
    if is_suspect(mask, Dir::W) {
        return false;
    }
    if is_suspect(mask, Dir::SW) {
        return false;
    }
    if is_suspect(mask, Dir::SE) {
        return false;
    }
    true
}

/// Whether the occupied neighbours of the place are two that touch.
fn is_beside_pair<B: Board>(board: &B, place: Place) -> bool
    requires { IsWithin 10000 place }
    ensures { IsTrue result → IsBesidePair (B.stacks board.now) place }
{
    let mask = board.neighbours(place);
    if only_in(mask).is_some() {
        return false;
    }
    if arcs(mask) == 1 {
        all_are_ends(mask)
    } else {
        false
    }
}

/// Whether the other place is not a neighbour of the first.
fn are_apart(from: Place, to: Place) -> bool
    requires { IsWithin 10000 from }
    ensures { IsTrue result → (d : AnyDir) → step from d ≢ to }
{
    match from.towards(to) {
        Some(_) => false,
        None => true,
    }
}

/// Whether the side's queen is in hand, or not on a neighbour of the place.
#[tactic(auto, using(hive_model::proofs::PlaceLemmas::wider, hive_model::proofs::PlaceLemmas::wider_on_board))]
fn is_apart<B: Board>(board: &B, side: Colour, place: Place) -> bool
    ensures { IsTrue result → IsApart (B.stacks board.now) side place }
{
    match board.spot(side.queen()) {
        Some(spot) => are_apart(spot.place, place),
        None => true,
    }
}

/// Whether the place is quiet for the side: the side may place there, and the place is beside two
/// places that touch and beside no queen.
#[tactic(auto, using(hive_model::proofs::PlaceLemmas::wider, hive_model::proofs::PlaceLemmas::wider_on_board))]
pub fn is_quiet<B: Board>(board: &B, side: Colour, place: Place) -> bool
    ensures { IsTrue result → IsQuiet (B.stacks board.now) side place }
{
    if !is_inside(place) {
        return false;
    }
    if !is_beside_pair(board, place) {
        return false;
    }
    if !may_place(board, side, place) {
        return false;
    }
    if !is_apart(board, Colour::White, place) {
        return false;
    }
    is_apart(board, Colour::Black, place)
}

/// A quiet neighbour of the place.
fn quiet_beside<B: Board>(board: &B, side: Colour, place: Place) -> Option<Place>
    requires { IsWithin 10000 place }
    ensures { IfSome result (IsQuiet (B.stacks board.now) side) }
{
    for dir in Dir::ALL {
        let beside = place.step(dir);
        if is_quiet(board, side, beside) {
            return Some(beside);
        }
    }
    None
}

/// A quiet place for the side beside one of its own pieces.
fn quiet_beside_own<B: Board>(board: &B, side: Colour) -> Option<Place>
    ensures { IfSome result (IsQuiet (B.stacks board.now) side) }
{
    for x in 0..28u8 {
        let piece = Piece::at(x);
        if !piece.colour().is(side) {
            continue;
        }
        let Some(spot) = board.spot(piece) else {
            continue;
        };
        let found = quiet_beside(board, side, spot.place);
        if found.is_some() {
            return found;
        }
    }
    None
}

/// A quiet place for the side: the hint, if it is quiet, and otherwise one beside a piece of its
/// own.
pub fn find_quiet<B: Board>(board: &B, side: Colour, hint: Option<Place>) -> Option<Place>
    ensures { IfSome result (IsQuiet (B.stacks board.now) side) }
{
    if let Some(place) = hint {
        if is_quiet(board, side, place) {
            return Some(place);
        }
    }
    quiet_beside_own(board, side)
}
