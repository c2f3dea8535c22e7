//! Moves of the bugs, and steps past a gate, on the grid.

ghost use Rattle.std.specs.Prelude.{◌≢◌, ◌<◌, IfOk};
ghost use Rattle.hive_model.specs.declared.pieces.Kind.TheVariants.{Mosquito};
ghost use Rattle.hive_model.specs.Places.{IsWithin, IsOnTheMap};
ghost use Rattle.games_tests.specs.Small.{IsSmall};

use bug_moves::{mosquito_reach, reach};
use gates::{climb_ok, slide_ok};
use hive_model::{Board, Kind, Piece, Place, PlaceList};
use std::alloc::{AllocError, Global};
use std::test::Fail;
use torus_board::Torus;

/// Puts a piece on top of a place near the origin, unless it is on the board already.
fn stand(board: &mut Torus<32>, index: u8, place: Place)
    requires piece { index < 28 }
    requires within { IsWithin 9 place }
    requires small { IsSmall board.old }
    ensures { IsSmall board.new }
{
    let piece = Piece::at(index);
    if board.spot(piece).is_none() {
        board.put(piece, place);
    }
}

/// A grid with no pieces.
#[tactic(auto, using(crate::proofs::Small::small_empty))]
fn empty_grid(alloc: Global) -> Result<Torus<32>, AllocError>
    ensures { IfOk result (λ b. IsSmall b) }
{
    let board = Torus::<32>::new(alloc)?;
    Ok(board)
}

/// Whether a list has these places, in this order.
fn are_listed(places: &PlaceList, wanted: &[(i32, i32)]) -> bool {
    let mut rest = wanted;
    for place in places.as_slice() {
        let Some(((q, r), others)) = rest.split_first() else {
            return false;
        };
        if place.q != *q || place.r != *r {
            return false;
        }
        rest = others;
    }
    rest.len() == 0
}

/// Whether a bug of this kind reaches exactly these places.
fn finds(board: &Torus<32>, kind: Kind, from: Place, wanted: &[(i32, i32)]) -> bool
    requires kind { kind ≢ Mosquito }
    requires within { IsOnTheMap from }
{
    let mut out = PlaceList::new();
    reach(kind, board, from, &mut out);
    are_listed(&out, wanted)
}

/// Whether a mosquito reaches exactly these places.
fn copies(board: &Torus<32>, from: Place, wanted: &[(i32, i32)]) -> bool
    requires { IsOnTheMap from }
{
    let mut out = PlaceList::new();
    mosquito_reach(board, from, &mut out);
    are_listed(&out, wanted)
}

const ORIGIN: Place = Place { q: 0, r: 0 };

/// The neighbours of the origin.
const ROUND: [(i32, i32); 6] = [(-1, 0), (-1, 1), (0, -1), (0, 1), (1, -1), (1, 0)];

/// The eleven places at distance 2 from the origin, without (2,0).
const OUTSIDE: [(i32, i32); 11] = [
    (-2, 0),
    (-2, 1),
    (-2, 2),
    (-1, -1),
    (-1, 2),
    (0, -2),
    (0, 2),
    (1, -2),
    (1, 1),
    (2, -2),
    (2, -1),
];

#[test]
fn beside_two_pieces(rt: HostRuntime) -> Result<(), Fail> {
    let mut board = empty_grid(rt.alloc())?;
    stand(&mut board, 1, ORIGIN);
    stand(&mut board, 15, Place { q: 1, r: 0 });
    let from = Place { q: -1, r: 0 };
    assert!(rt; finds(&board, Kind::Queen, from, &[(-1, 1), (0, -1)]));
    assert!(rt; finds(&board, Kind::Beetle, from, &[(-1, 1), (0, -1), (0, 0)]));
    assert!(rt; finds(&board, Kind::Grasshopper, from, &[(2, 0)]));
    assert!(rt; finds(&board, Kind::Spider, from, &[(1, 1), (2, -1)]));
    let ant = [(-1, 1), (0, -1), (0, 1), (1, -1), (1, 1), (2, -1), (2, 0)];
    assert!(rt; finds(&board, Kind::Ant, from, &ant));
    let ladybug = [(0, 1), (1, -1), (1, 1), (2, -1), (2, 0)];
    assert!(rt; finds(&board, Kind::Ladybug, from, &ladybug));
    Ok(())
}

#[test]
fn in_and_round_a_ring(rt: HostRuntime) -> Result<(), Fail> {
    let mut board = empty_grid(rt.alloc())?;
    stand(&mut board, 0, Place { q: -1, r: 0 });
    stand(&mut board, 1, Place { q: -1, r: 1 });
    stand(&mut board, 2, Place { q: 0, r: -1 });
    stand(&mut board, 3, Place { q: 0, r: 1 });
    stand(&mut board, 14, Place { q: 1, r: -1 });
    stand(&mut board, 15, Place { q: 1, r: 0 });
    assert!(rt; finds(&board, Kind::Ant, ORIGIN, &[]));
    assert!(rt; finds(&board, Kind::Beetle, ORIGIN, &ROUND));
    assert!(rt; finds(&board, Kind::Ant, Place { q: 2, r: 0 }, &OUTSIDE));
    Ok(())
}

#[test]
fn through_a_gate(rt: HostRuntime) -> Result<(), Fail> {
    let mut board = empty_grid(rt.alloc())?;
    stand(&mut board, 5, Place { q: 1, r: 0 });
    stand(&mut board, 1, Place { q: 1, r: -1 });
    stand(&mut board, 17, Place { q: 1, r: -1 });
    stand(&mut board, 15, Place { q: 0, r: 1 });
    stand(&mut board, 3, Place { q: 0, r: 1 });
    assert!(rt; !climb_ok(&board, ORIGIN, Place { q: 1, r: 0 }));
    assert!(rt; !slide_ok(&board, ORIGIN, Place { q: 1, r: 0 }));
    assert!(rt; !slide_ok(&board, ORIGIN, Place { q: -1, r: 0 }));
    assert!(rt; slide_ok(&board, ORIGIN, Place { q: 0, r: -1 }));
    stand(&mut board, 8, ORIGIN);
    stand(&mut board, 18, ORIGIN);
    assert!(rt; climb_ok(&board, ORIGIN, Place { q: 1, r: 0 }));
    assert!(rt; !slide_ok(&board, ORIGIN, Place { q: 0, r: -1 }));
    Ok(())
}

#[test]
fn mosquitoes(rt: HostRuntime) -> Result<(), Fail> {
    let mut beside = empty_grid(rt.alloc())?;
    stand(&mut beside, 25, Place { q: 1, r: 0 });
    assert!(rt; copies(&beside, ORIGIN, &[]));
    let mut above = empty_grid(rt.alloc())?;
    stand(&mut above, 15, ORIGIN);
    stand(&mut above, 22, Place { q: 1, r: 0 });
    assert!(rt; copies(&above, ORIGIN, &ROUND));
    Ok(())
}
