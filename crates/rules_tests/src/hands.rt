//! Tests of `hand_rules`: placements in small positions.

ghost use Rattle.std.specs.Prelude.{◌<◌, length};
ghost use Rattle.hive_model.specs.Places.{IsWithin};

use hand_rules::{in_hand, may_bring, may_place, next_of, placements};
use hive_model::{Board, Colour, GameType, Kind, Move, MoveStack, Piece, Place};
use stack_board::PlainBoard;
use std::process::Abort;
use std::test::Fail;

const BASE: GameType = GameType {
    mosquito: false,
    ladybug: false,
    pillbug: false,
};

const ALL_EXPANSIONS: GameType = GameType {
    mosquito: true,
    ladybug: true,
    pillbug: true,
};

fn put(rt: &impl Abort, board: &mut PlainBoard, piece: Piece, place: Place)
    requires { IsWithin 9000 place }
{
    assert!(rt; board.spot(piece).is_none());
    board.put(piece, place);
}

/// Asserts that the moves of the first level are these pieces to these places.
fn holds(rt: &impl Abort, moves: &MoveStack, wanted: &[(u8, i32, i32)])
    requires { 0 < length moves.now.lists }
{
    assert_eq!(rt; moves.level_len(0) as usize, wanted.len());
    for (i, (piece, q, r)) in wanted.iter().enumerate() {
        match moves.get(0, i as u32) {
            Move::Pass => assert!(rt; false, "a pass at {i}"),
            Move::To {
                piece: moved,
                place,
            } => {
                assert_eq!(rt; moved.index(), *piece, "the piece at {i}");
                assert_eq!(rt; place.q, *q, "q at {i}");
                assert_eq!(rt; place.r, *r, "r at {i}");
            }
        }
    }
}

#[test]
fn opens_with_the_first_of_each_kind_but_the_queen(rt: HostRuntime) -> Result<(), Fail> {
    let board = PlainBoard::new(rt.alloc())?;
    let mut moves = MoveStack::new(rt.alloc(), 1)?;
    moves.begin_level();
    placements(BASE, &board, Colour::White, 1, &mut moves);
    holds(&rt, &moves, &[(1, 0, 0), (3, 0, 0), (5, 0, 0), (8, 0, 0)]);
    Ok(())
}

#[test]
fn opens_with_the_expansions_too(rt: HostRuntime) -> Result<(), Fail> {
    let board = PlainBoard::new(rt.alloc())?;
    let mut moves = MoveStack::new(rt.alloc(), 1)?;
    moves.begin_level();
    placements(ALL_EXPANSIONS, &board, Colour::White, 1, &mut moves);
    holds(
        &rt,
        &moves,
        &[
            (1, 0, 0),
            (3, 0, 0),
            (5, 0, 0),
            (8, 0, 0),
            (11, 0, 0),
            (12, 0, 0),
            (13, 0, 0),
        ],
    );
    Ok(())
}

#[test]
fn black_answers_beside_the_first_piece(rt: HostRuntime) -> Result<(), Fail> {
    let mut board = PlainBoard::new(rt.alloc())?;
    put(&rt, &mut board, Piece::at(1), Place { q: 0, r: 0 });
    let mut moves = MoveStack::new(rt.alloc(), 1)?;
    moves.begin_level();
    placements(BASE, &board, Colour::Black, 1, &mut moves);
    holds(
        &rt,
        &moves,
        &[
            (15, -1, 0),
            (15, -1, 1),
            (15, 0, -1),
            (15, 0, 1),
            (15, 1, -1),
            (15, 1, 0),
            (17, -1, 0),
            (17, -1, 1),
            (17, 0, -1),
            (17, 0, 1),
            (17, 1, -1),
            (17, 1, 0),
            (19, -1, 0),
            (19, -1, 1),
            (19, 0, -1),
            (19, 0, 1),
            (19, 1, -1),
            (19, 1, 0),
            (22, -1, 0),
            (22, -1, 1),
            (22, 0, -1),
            (22, 0, 1),
            (22, 1, -1),
            (22, 1, 0),
        ],
    );
    Ok(())
}

#[test]
fn the_queen_comes_by_the_fourth_turn(rt: HostRuntime) -> Result<(), Fail> {
    let mut board = PlainBoard::new(rt.alloc())?;
    put(&rt, &mut board, Piece::at(1), Place { q: 0, r: 0 });
    put(&rt, &mut board, Piece::at(15), Place { q: 1, r: 0 });
    put(&rt, &mut board, Piece::at(5), Place { q: -1, r: 0 });
    put(&rt, &mut board, Piece::at(19), Place { q: 2, r: 0 });
    put(&rt, &mut board, Piece::at(8), Place { q: -2, r: 0 });
    put(&rt, &mut board, Piece::at(22), Place { q: 3, r: 0 });
    let mut moves = MoveStack::new(rt.alloc(), 1)?;
    moves.begin_level();
    placements(BASE, &board, Colour::White, 4, &mut moves);
    holds(
        &rt,
        &moves,
        &[
            (0, -3, 0),
            (0, -3, 1),
            (0, -2, -1),
            (0, -2, 1),
            (0, -1, -1),
            (0, -1, 1),
            (0, 0, -1),
        ],
    );
    Ok(())
}

#[test]
fn asks_of_one_piece_and_one_place(rt: HostRuntime) -> Result<(), Fail> {
    let mut board = PlainBoard::new(rt.alloc())?;
    put(&rt, &mut board, Piece::at(1), Place { q: 0, r: 0 });
    assert!(rt; !in_hand(BASE, &board, Piece::at(1)));
    assert!(rt; in_hand(BASE, &board, Piece::at(2)));
    assert!(rt; !in_hand(BASE, &board, Piece::at(11)));
    match next_of(BASE, &board, Colour::White, Kind::Spider) {
        Some(next) => assert_eq!(rt; next.index(), 2),
        None => assert!(rt; false, "the second spider is in hand"),
    }
    assert!(rt; next_of(BASE, &board, Colour::White, Kind::Mosquito).is_none());
    assert!(rt; may_bring(BASE, &board, Colour::White, 2, Piece::at(0)));
    assert!(rt; !may_bring(BASE, &board, Colour::White, 2, Piece::at(4)));
    assert!(rt; may_place(&board, Colour::White, Place { q: 0, r: 1 }));
    assert!(rt; !may_place(&board, Colour::White, Place { q: 2, r: 0 }));
    Ok(())
}
