//! Tests of `bug_moves`: a mosquito on the ground, and one on a stack.

ghost use Rattle.hive_model.specs.Places.{IsOnTheMap};

use bug_moves::mosquito_reach;
use hive_model::{Piece, Place, PlaceList};
use stack_board::PlainBoard;
use std::test::Fail;

fn finds(board: &PlainBoard, from: Place, wanted: &[Place]) -> bool
    requires { IsOnTheMap from }
{
    let mut out = PlaceList::new();
    mosquito_reach(board, from, &mut out);
    out.as_slice() == wanted
}

#[test]
fn beside_a_mosquito(rt: HostRuntime) -> Result<(), Fail> {
    let mut board = PlainBoard::new(rt.alloc())?;
    board.put(Piece::at(25), Place { q: 1, r: 0 });
    assert!(rt; finds(&board, Place { q: 0, r: 0 }, &[]));
    Ok(())
}

#[test]
fn on_a_spider_beside_an_ant(rt: HostRuntime) -> Result<(), Fail> {
    let mut board = PlainBoard::new(rt.alloc())?;
    board.put(Piece::at(15), Place { q: 0, r: 0 });
    board.put(Piece::at(22), Place { q: 1, r: 0 });
    let around = [
        Place { q: -1, r: 0 },
        Place { q: -1, r: 1 },
        Place { q: 0, r: -1 },
        Place { q: 0, r: 1 },
        Place { q: 1, r: -1 },
        Place { q: 1, r: 0 },
    ];
    assert!(rt; finds(&board, Place { q: 0, r: 0 }, &around));
    Ok(())
}
