//! Tests of `hive_eval`: small boards whose worth was computed by hand.

use crate::boards::{again, board_of};
use hive_eval::evaluate;
use hive_model::{Colour, Kind, Piece};
use one_hive::{KnownCuts, Separating};
use stack_board::PlainBoard;
use std::test::Fail;

/// What the board is worth to white and to black.
fn worth(board: &PlainBoard, rest: Option<Piece>) -> (i32, i32) {
    let separating = Separating::found(board);
    let board = KnownCuts::new(board, &separating);
    let white = evaluate(&board, Colour::White, again(&rest));
    let black = evaluate(&board, Colour::Black, rest);
    (white, black)
}

#[test]
fn nothing_and_one_piece(rt: HostRuntime) -> Result<(), Fail> {
    let empty = board_of(rt.alloc(), &[])?;
    assert_eq!(rt; worth(&empty, None), (0, 0));
    let one = board_of(rt.alloc(), &[(Colour::White, Kind::Spider, 1, 0, 0)])?;
    assert_eq!(rt; worth(&one, None), (4, -4));
    Ok(())
}

/// White's queen has three neighbours and is on a cut place; black's has two neighbours. The ant,
/// black's queen and, unless it rests, the beetle are free.
#[test]
fn queens_with_neighbours(rt: HostRuntime) -> Result<(), Fail> {
    let beetle = Piece::new(Colour::Black, Kind::Beetle, 1).ok_or("bB1")?;
    let board = board_of(
        rt.alloc(),
        &[
            (Colour::White, Kind::Queen, 0, 0, 0),
            (Colour::White, Kind::Ant, 1, -1, 0),
            (Colour::Black, Kind::Queen, 0, 1, 0),
            (Colour::Black, Kind::Beetle, 1, 0, 1),
        ],
    )?;
    assert_eq!(rt; worth(&board, None), (-42, 42));
    assert_eq!(rt; worth(&board, Some(beetle)), (-34, 34));
    Ok(())
}

/// Four places in a line, with two pieces on one of them. A covered piece is not free. A beetle
/// above it is, even if its place holds the hive together. Both queens have two neighbours, and are
/// not free on a place that does so.
#[test]
fn covered_pieces(rt: HostRuntime) -> Result<(), Fail> {
    let at_the_end = board_of(
        rt.alloc(),
        &[
            (Colour::White, Kind::Ant, 1, -1, 0),
            (Colour::Black, Kind::Beetle, 1, -1, 0),
            (Colour::White, Kind::Queen, 0, 0, 0),
            (Colour::Black, Kind::Queen, 0, 1, 0),
            (Colour::Black, Kind::Grasshopper, 1, 2, 0),
        ],
    )?;
    assert_eq!(rt; worth(&at_the_end, None), (-14, 14));
    let within = board_of(
        rt.alloc(),
        &[
            (Colour::White, Kind::Ant, 1, -1, 0),
            (Colour::White, Kind::Queen, 0, 0, 0),
            (Colour::Black, Kind::Beetle, 1, 0, 0),
            (Colour::Black, Kind::Queen, 0, 1, 0),
            (Colour::Black, Kind::Grasshopper, 1, 2, 0),
        ],
    )?;
    assert_eq!(rt; worth(&within, None), (-4, 4));
    Ok(())
}

/// One piece of each kind, all free: 58 in all, minus 40 for each of the queen's two neighbours.
/// Black's queen is in hand.
#[test]
fn every_kind(rt: HostRuntime) -> Result<(), Fail> {
    let board = board_of(
        rt.alloc(),
        &[
            (Colour::White, Kind::Pillbug, 0, 0, 0),
            (Colour::White, Kind::Spider, 1, 1, 0),
            (Colour::White, Kind::Beetle, 1, 1, -1),
            (Colour::White, Kind::Grasshopper, 1, 0, -1),
            (Colour::White, Kind::Ant, 1, -1, 0),
            (Colour::White, Kind::Mosquito, 0, -1, 1),
            (Colour::White, Kind::Ladybug, 0, 0, 1),
            (Colour::White, Kind::Queen, 0, 2, -1),
        ],
    )?;
    assert_eq!(rt; worth(&board, None), (-22, 22));
    Ok(())
}
