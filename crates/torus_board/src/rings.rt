//! Which neighbours of places are occupied, by their cells.

ghost use Rattle.std.specs.Prelude.{
  ◌≡◌,
  ◌≢◌,
  ◌*◌,
  ◌<◌,
  ◌≤◌,
  ℕ,
  Bool,
  Some,
  not,
  true,
  length,
  slice_get,
};
ghost use Rattle.hive_model.specs.declared.places.Dir.{Dir as AnyDir};
ghost use Rattle.hive_model.specs.declared.places.Place.{Place as AnyPlace};
ghost use Rattle.hive_model.specs.Boards.{Stacks, is_occupied};
ghost use Rattle.hive_model.specs.Neighbours.{ring, ring_mask};
ghost use Rattle.hive_model.specs.Places.{IsWithin, step};
ghost use Rattle.torus_board.specs.Grid.{HasMask, HasTowers, IsRinged, IsTurned};

use crate::index_in;
use crate::towers::{Tower, height_in};
use hive_model::{Dir, Place};

/// The place that a cell was written for last, and which of its neighbours are occupied, as a mask.
#[derive(Clone, Copy)]
pub struct Ring {
    pub place: Place,
    pub mask: u8,
}

/// The ring of a cell.
fn ring_in(rings: &[Ring], index: usize) -> Ring
    requires { index < length rings.now }
    ensures { slice_get rings.now index ≡ Some result }
{
    rings[index]
}

/// Which neighbours of the place are occupied, by the heights there.
#[inline(never)]
fn mask_by_heights(towers: &[Tower], side: usize, place: Place) -> u8
    requires small { side ≤ 128 }
    requires some { 0 < side }
    requires many { length towers.now ≡ side * side }
    requires within { IsWithin 10000 place }
    ensures mask { (b : Stacks) → HasTowers side b towers.now
        → result ≡ ring_mask (ring (is_occupied b) place) }
{
    Dir::E.bit_if(height_in(towers, side, place.step(Dir::E)) > 0)
        + Dir::NE.bit_if(height_in(towers, side, place.step(Dir::NE)) > 0)
        + Dir::NW.bit_if(height_in(towers, side, place.step(Dir::NW)) > 0)
        + Dir::W.bit_if(height_in(towers, side, place.step(Dir::W)) > 0)
        + Dir::SW.bit_if(height_in(towers, side, place.step(Dir::SW)) > 0)
        + Dir::SE.bit_if(height_in(towers, side, place.step(Dir::SE)) > 0)
}

/// Which neighbours of the place are occupied: in one read where its cell was written for it last.
pub fn mask_in(rings: &[Ring], towers: &[Tower], side: usize, place: Place) -> u8
    requires small { side ≤ 128 }
    requires some { 0 < side }
    requires rings { length rings.now ≡ side * side }
    requires towers { length towers.now ≡ side * side }
    requires within { IsWithin 10000 place }
    ensures mask { (b : Stacks) → HasTowers side b towers.now → IsRinged side b rings.now
        → result ≡ ring_mask (ring (is_occupied b) place) }
{
    let ring = ring_in(rings, index_in(side, place));
    if ring.place.is(place) {
        ring.mask
    } else {
        mask_by_heights(towers, side, place)
    }
}

/// The mask with the bit of the direction turned.
#[inline(always)]
fn turned(mask: u8, dir: Dir) -> u8
    ensures { (r s : AnyDir → Bool) → mask ≡ ring_mask r → s dir ≡ not (r dir)
        → ((d : AnyDir) → d ≢ dir → s d ≡ r d) → result ≡ ring_mask s }
{
    mask ^ dir.bit()
}

/// Which neighbours of the place are occupied, once that in the direction came to be occupied or
/// empty: where the ring of its cell was written for it, the mask there with one bit turned, and
/// else by the heights, which are those after the change.
#[inline(always)]
fn mask_after(last: Ring, towers: &[Tower], side: usize, place: Place, dir: Dir) -> u8
    requires small { side ≤ 128 }
    requires some { 0 < side }
    requires many { length towers.now ≡ side * side }
    requires within { IsWithin 10000 place }
    ensures mask { (b c : Stacks) → HasTowers side c towers.now → IsTurned b c (step place dir) true
        → (last.place ≡ place → last.mask ≡ ring_mask (ring (is_occupied b) place))
        → result ≡ ring_mask (ring (is_occupied c) place) }
{
    if last.place.is(place) {
        turned(last.mask, dir)
    } else {
        mask_by_heights(towers, side, place)
    }
}

/// Writes the cell of a place whose neighbour in the direction came to be occupied or empty. The
/// heights are those after the change.
#[inline(always)]
fn renew(rings: &mut [Ring], towers: &[Tower], side: usize, place: Place, dir: Dir)
    requires small { side ≤ 128 }
    requires some { 0 < side }
    requires rings { length rings.old ≡ side * side }
    requires towers { length towers.now ≡ side * side }
    requires within { IsWithin 10000 place }
    ensures many { length rings.new ≡ side * side }
    ensures here { (b c : Stacks) (m : ℕ) → HasTowers side c towers.now
        → IsTurned b c (step place dir) true
        → ((k : ℕ) → HasMask side rings.old place k → k ≡ ring_mask (ring (is_occupied b) place))
        → HasMask side rings.new place m → m ≡ ring_mask (ring (is_occupied c) place) }
    ensures there { (q : AnyPlace) (m : ℕ) → q ≢ place → HasMask side rings.new q m
        → HasMask side rings.old q m }
{
    let index = index_in(side, place);
    let last = ring_in(rings, index);
    let mask = mask_after(last, towers, side, place, dir);
    rings[index] = Ring { place, mask };
}

/// Writes the cells of the six neighbours of a place that came to be occupied or empty; where it
/// did not, none. The heights are those after the change, and each direction is the one that leads
/// back from the neighbour to the place.
#[inline(always)]
pub fn renew_round(rings: &mut [Ring], towers: &[Tower], side: usize, place: Place, changes: bool)
    requires small { side ≤ 128 }
    requires some { 0 < side }
    requires rings { length rings.old ≡ side * side }
    requires towers { length towers.now ≡ side * side }
    requires within { IsWithin 9000 place }
    ensures { (b c : Stacks) → HasTowers side c towers.now → IsRinged side b rings.old
        → IsTurned b c place changes → IsRinged side c rings.new }
{
    if !changes {
        return;
    }
    renew(rings, towers, side, place.step(Dir::E), Dir::W);
    renew(rings, towers, side, place.step(Dir::NE), Dir::SW);
    renew(rings, towers, side, place.step(Dir::NW), Dir::SE);
    renew(rings, towers, side, place.step(Dir::W), Dir::E);
    renew(rings, towers, side, place.step(Dir::SW), Dir::NE);
    renew(rings, towers, side, place.step(Dir::SE), Dir::NW);
}
