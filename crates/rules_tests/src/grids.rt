//! Tests of `torus_board`: places with equal residues, and a stack of two, put and lifted.

ghost use Rattle.std.specs.Prelude.{◌≤ℤ◌, pos, negsuc};
ghost use Rattle.torus_board.specs.Grid.{IsSide};

use hive_model::{Board, Piece, Place, Spot};
use std::alloc::{AllocError, Global};
use std::test::Fail;
use torus_board::Torus;

const ORIGIN: Place = Place { q: 0, r: 0 };

/// Whether the board shows the place as empty.
fn is_empty<B: Board>(board: &B, q: i32, r: i32) -> bool {
    let place = Place { q, r };
    board.top(place).is_none() && board.height(place) == 0
}

/// Whether a piece on the origin is seen there, and not on three places of the same cell, a side's
/// length away.
fn sees_one_place<const SIDE: usize>(alloc: Global, far: i32) -> Result<bool, AllocError>
    requires side { IsSide SIDE }
    requires low { negsuc 199 ≤ℤ far }
    requires high { far ≤ℤ pos 200 }
{
    let mut board = Torus::<SIDE>::new(alloc)?;
    board.put(Piece::at(1), ORIGIN);
    Ok(
        board.top(ORIGIN) == Some(Piece::at(1))
            && is_empty(&board, far, 0)
            && is_empty(&board, 0, far)
            && is_empty(&board, -far, far),
    )
}

#[test]
fn other_places_of_a_cell_are_empty(rt: HostRuntime) -> Result<(), Fail> {
    assert!(rt; sees_one_place::<32>(rt.alloc(), 32)?);
    assert!(rt; sees_one_place::<64>(rt.alloc(), 64)?);
    assert!(rt; sees_one_place::<128>(rt.alloc(), 128)?);
    Ok(())
}

#[test]
fn stack_of_two(rt: HostRuntime) -> Result<(), Fail> {
    let beside = Place { q: 1, r: 0 };
    let mut board = Torus::<32>::new(rt.alloc())?;
    board.put(Piece::at(3), ORIGIN);
    board.put(Piece::at(17), ORIGIN);
    assert_eq!(rt; board.height(ORIGIN), 2);
    assert_eq!(rt; board.top(ORIGIN), Some(Piece::at(17)));
    assert_eq!(rt; board.under(Piece::at(17)), Some(Piece::at(3)));
    assert_eq!(rt; board.under(Piece::at(3)), None);
    assert_eq!(rt;
        board.spot(Piece::at(17)),
        Some(Spot {
            place: ORIGIN,
            level: 1
        })
    );
    assert_eq!(rt; board.top(beside), None);
    assert_eq!(rt; board.lift(Piece::at(17)), ORIGIN);
    assert_eq!(rt; board.top(ORIGIN), Some(Piece::at(3)));
    assert_eq!(rt; board.height(ORIGIN), 1);
    assert_eq!(rt; board.spot(Piece::at(17)), None);
    Ok(())
}
