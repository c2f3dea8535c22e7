//! Tests of `stack_board`: a stack of two, put and lifted.

use hive_model::{Board, Piece, Place, Spot};
use stack_board::PlainBoard;
use std::test::Fail;

#[test]
fn stack_of_two(rt: HostRuntime) -> Result<(), Fail> {
    let here = Place { q: 0, r: 0 };
    let beside = Place { q: 1, r: 0 };
    let mut board = PlainBoard::new(rt.alloc())?;
    board.put(Piece::at(3), here);
    board.put(Piece::at(15), beside);
    board.put(Piece::at(17), here);
    assert_eq!(rt; board.height(here), 2);
    assert_eq!(rt; board.height(beside), 1);
    assert_eq!(rt; board.top(here), Some(Piece::at(17)));
    assert_eq!(rt; board.top(Place { q: 0, r: 1 }), None);
    assert_eq!(rt; board.under(Piece::at(17)), Some(Piece::at(3)));
    assert_eq!(rt; board.under(Piece::at(3)), None);
    assert_eq!(rt;
        board.spot(Piece::at(17)),
        Some(Spot {
            place: here,
            level: 1
        })
    );
    assert_eq!(rt; board.lift(Piece::at(17)), here);
    assert_eq!(rt; board.top(here), Some(Piece::at(3)));
    assert_eq!(rt; board.spot(Piece::at(17)), None);
    Ok(())
}
