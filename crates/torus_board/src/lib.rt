//! A board on a wrapped grid.
#![tactic(auto)]

mod residues;
mod rings;
mod towers;

ghost use Rattle.std.specs.Prelude.{
  ◌≡◌,
  ◌*◌,
  ◌<◌,
  ◌≤◌,
  IsTrue,
  IsNone,
  IfOk,
  IfSome,
  Some,
  slice_get,
  [],
};
ghost use Rattle.hive_model.specs.Boards.{
  Stacks,
  spot_of,
  put,
  lift,
  is_on_top,
};
ghost use Rattle.hive_model.specs.Places.{IsWithin};
ghost use Rattle.hive_model.specs.Spread.{IsSpread, IsNearAll};
ghost use Rattle.torus_board.specs.Residues.{residue, cell_of};
ghost use Rattle.torus_board.specs.Grid.{IsSide, IsLinked};

use crate::rings::{Ring, mask_in, renew_round};
use crate::towers::{Tower, height_in, top_in, tower_in};
use hive_model::{Board, GameBoard, Piece, Place, Spot, spot_in, spots_are_board};
pub use residues::residues_are_distinct;
use std::alloc::{AllocError, Global};
use std::marker::Model;

/// The tower of a cell that was not written yet.
const NO_TOWER: Tower = Tower {
    place: Place { q: 0, r: 0 },
    height: 0,
    top: None,
};

/// The ring of a cell that was not written yet.
const NO_RING: Ring = Ring {
    place: Place { q: 0, r: 0 },
    mask: 0,
};

/// A coordinate's residue.
fn residue(z: i32, side: usize) -> usize
    requires small { side ≤ 128 }
    requires some { 0 < side }
    ensures residue { result ≡ residue side z }
    ensures bound { result < side }
{
    z.rem_euclid(side as i32) as usize
}

/// The index of a place's cell.
fn index_in(side: usize, place: Place) -> usize
    requires small { side ≤ 128 }
    requires some { 0 < side }
    ensures index { result ≡ cell_of side place }
    ensures bound { result < side * side }
{
    side * residue(place.q, side) + residue(place.r, side)
}

/// What is directly below the piece.
fn under_in(below: &[Option<Piece>; 28], piece: Piece) -> Option<Piece>
    ensures { slice_get below.now piece ≡ Some result }
{
    below[piece.index() as usize]
}

/// A board of at most 28 pieces, seen as the finite map from places to the pieces there. It keeps
/// where each piece stands and what is directly below it, and in two grids of SIDE times SIDE cells
/// the height of each place, its top piece and which of its neighbours are occupied, found by the
/// residues of the place's coordinates. So a place's height and top piece are one read, and a place
/// with the residues of another reads as empty.
#[derive(Drop)]
pub struct Torus<const SIDE: usize> {
    spots: [Option<Spot>; 28],
    below: [Option<Piece>; 28],
    towers: Vec<Tower>,
    rings: Vec<Ring>,
}

impl<const SIDE: usize> Model for Torus<SIDE> {
    ghost use Rattle.std.specs.Prelude.{◌≤◌};
    ghost use Rattle.hive_model.specs.Boards.{Stacks};
    ghost use Rattle.hive_model.specs.Spots.{board_of, IsSpots};
    ghost use Rattle.hive_model.specs.Spread.{IsSpread};
    ghost use Rattle.torus_board.specs.Grid.{HasTowers, IsLinked, IsRinged};

    ghost Value = { Stacks };

    ghost view = { λ a. board_of a.spots };

    ghost invariant = { λ a. (32 ≤ SIDE) × (SIDE ≤ 128) × IsSpots a.spots
        × IsLinked (board_of a.spots) a.below
        × IsSpread SIDE (board_of a.spots)
        × HasTowers SIDE (board_of a.spots) a.towers.items
        × IsRinged SIDE (board_of a.spots) a.rings.items };
}

impl<const SIDE: usize> Board for Torus<SIDE> {
    ghost use Rattle.hive_model.specs.Boards.{Stacks};

    ghost stacks = { λ b. b };

    fn top(&self, place: Place) -> Option<Piece> {
        top_in(&self.towers, SIDE, place)
    }

    fn height(&self, place: Place) -> u8 {
        height_in(&self.towers, SIDE, place)
    }

    fn spot(&self, piece: Piece) -> Option<Spot> {
        spot_in(&self.spots, piece)
    }

    fn lemma_board(&self) {
        spots_are_board(&self.spots);
    }

    fn under(&self, piece: Piece) -> Option<Piece> {
        under_in(&self.below, piece)
    }

    fn neighbours(&self, place: Place) -> u8 {
        mask_in(&self.rings, &self.towers, SIDE, place)
    }
}

impl GameBoard for Torus<32> {
    fn empty(alloc: Global) -> Result<Self, AllocError> {
        Torus::new(alloc)
    }

    fn put(&mut self, piece: Piece, place: Place) {
        self.put(piece, place);
    }

    fn lift(&mut self, piece: Piece) -> Place {
        self.lift(piece)
    }
}

impl<const SIDE: usize> Torus<SIDE> {
    /// The empty board. All its memory is taken here.
    pub fn new(alloc: Global) -> Result<Torus<SIDE>, AllocError>
        requires { IsSide SIDE }
        ensures { IfOk result (λ b. b ≡ []) }
    {
        Ok(Torus {
            spots: [None; 28],
            below: [None; 28],
            towers: vec![in alloc; NO_TOWER; SIDE * SIDE]?,
            rings: vec![in alloc; NO_RING; SIDE * SIDE]?,
        })
    }

    /// Puts a piece that is not on the board on top of a place, whose coordinates are from -9000 to
    /// 9000. Every occupied place differs from it by less than SIDE in each coordinate.
    pub fn put(&mut self, piece: Piece, place: Place)
        requires absent { IsNone (spot_of self.old piece) }
        requires within { IsWithin 9000 place }
        requires near { IsNearAll SIDE self.old place }
        ensures { self.new ≡ put self.old piece place }
    {
        let last = tower_in(&self.towers, SIDE, place);
        let level = last.height;
        let index = index_in(SIDE, place);
        self.towers[index] = Tower {
            place,
            height: level + 1,
            top: Some(piece),
        };
        self.below[piece.index() as usize] = last.top;
        self.spots[piece.index() as usize] = Some(Spot { place, level });
        renew_round(&mut self.rings, &self.towers, SIDE, place, level == 0);
    }

    /// Takes away a piece that is on top of its place, and answers that place.
    pub fn lift(&mut self, piece: Piece) -> Place
        requires { IsTrue (is_on_top self.old piece) }
        ensures lifted { self.new ≡ lift self.old piece }
        ensures place { IfSome (spot_of self.old piece) (λ s. s.place ≡ result) }
    {
        match spot_in(&self.spots, piece) {
            Some(spot) => {
                let place = spot.place;
                let index = index_in(SIDE, place);
                let below = under_in(&self.below, piece);
                self.towers[index] = Tower {
                    place,
                    height: spot.level,
                    top: below,
                };
                self.below[piece.index() as usize] = None;
                self.spots[piece.index() as usize] = None;
                let is_ground = spot.level == 0;
                renew_round(&mut self.rings, &self.towers, SIDE, place, is_ground);
                place
            }
            None => unreachable!(),
        }
    }
}
