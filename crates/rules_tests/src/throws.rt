//! Tests of `pillbug_throws`: throws over a board of spots, whose cut places one walk finds.

use crate::boards::{again, board_of};
use hive_model::{Colour, Kind, Piece, Place, PlaceList};
use one_hive::{KnownCuts, Separating};
use pillbug_throws::{may_throw, throws};
use stack_board::PlainBoard;
use std::test::Fail;

/// The places to which one piece throws the other, if it may throw.
fn thrown(board: &PlainBoard, thrower: Piece, piece: Piece, rest: Option<Piece>) -> PlaceList {
    let mut places = PlaceList::new();
    let separating = Separating::found(board);
    let board = KnownCuts::new(board, &separating);
    if may_throw(&board, thrower, again(&rest)) {
        throws(&board, thrower, piece, rest, &mut places);
    }
    places
}

#[test]
fn end_of_a_line(rt: HostRuntime) -> Result<(), Fail> {
    let pillbug = Piece::new(Colour::White, Kind::Pillbug, 0).ok_or("wP")?;
    let ant = Piece::new(Colour::Black, Kind::Ant, 1).ok_or("bA1")?;
    let board = board_of(
        rt.alloc(),
        &[
            (Colour::White, Kind::Pillbug, 0, 0, 0),
            (Colour::Black, Kind::Ant, 1, 1, 0),
            (Colour::White, Kind::Queen, 0, -1, 0),
        ],
    )?;
    let free = [
        Place { q: -1, r: 1 },
        Place { q: 0, r: -1 },
        Place { q: 0, r: 1 },
        Place { q: 1, r: -1 },
    ];
    assert_eq!(rt;
        thrown(&board, pillbug, ant, None).as_slice(),
        free.as_slice()
    );
    assert!(rt; thrown(&board, pillbug, ant, Some(ant)).is_empty());
    assert!(rt; thrown(&board, pillbug, ant, Some(pillbug)).is_empty());
    assert!(rt; !may_throw(&board, ant, None));
    Ok(())
}

#[test]
fn cut_places(rt: HostRuntime) -> Result<(), Fail> {
    let pillbug = Piece::new(Colour::White, Kind::Pillbug, 0).ok_or("wP")?;
    let ant = Piece::new(Colour::Black, Kind::Ant, 1).ok_or("bA1")?;
    let queen = Piece::new(Colour::White, Kind::Queen, 0).ok_or("wQ")?;
    let board = board_of(
        rt.alloc(),
        &[
            (Colour::White, Kind::Pillbug, 0, 0, 0),
            (Colour::Black, Kind::Ant, 1, 1, 0),
            (Colour::White, Kind::Queen, 0, -1, 0),
            (Colour::Black, Kind::Queen, 0, 2, -1),
            (Colour::White, Kind::Spider, 1, -2, 0),
        ],
    )?;
    assert!(rt; may_throw(&board, pillbug, None));
    assert!(rt; thrown(&board, pillbug, ant, None).is_empty());
    assert!(rt; thrown(&board, pillbug, queen, None).is_empty());
    Ok(())
}
