//! Counts and values of known positions.

mod beside;
mod early;
mod kept;
mod timed;
mod workers;

ghost use Rattle.std.specs.Prelude.{◌<◌, ◌≤◌};

use hive_model::{Game, GameType, Move, MoveStack, Piece, Place};
use plain_game::PlainGame;
use plain_search::{MoveCounts, count_lines, minimax};
use std::alloc::{AllocError, Global};
use std::test::Fail;

const BASE: GameType = GameType {
    mosquito: false,
    ladybug: false,
    pillbug: false,
};

const ALL: GameType = GameType {
    mosquito: true,
    ladybug: true,
    pillbug: true,
};

/// A game of twelve plies, each by the index of its piece and the place to which the piece goes.
/// White can then surround the black queen with one move.
const BEFORE_A_WIN: [(u8, i32, i32); 12] = [
    (1, 0, 0),
    (15, 1, 0),
    (0, -1, 1),
    (14, 2, 0),
    (0, 0, 1),
    (14, 1, 1),
    (5, -1, 0),
    (19, 2, 0),
    (3, -1, 2),
    (17, 2, 1),
    (8, -2, 2),
    (22, 1, 2),
];

/// How many lists of `plies` moves the opening has.
fn counted(alloc: Global, game_type: GameType, plies: u32) -> Result<u128, AllocError>
    requires { plies ≤ 8 }
{
    let mut game = PlainGame::opening(alloc, game_type)?;
    game.reserve(plies)?;
    let mut stack = MoveStack::new(alloc, 8)?;
    // so little room that keys replace each other
    let mut counts = MoveCounts::new(alloc, 64)?;
    Ok(count_lines(&mut game, plies, &mut stack, &mut counts))
}

/// Plays the piece to the place, if that is legal.
fn plays(game: &mut PlainGame, index: u8, place: Place) -> Result<bool, AllocError> {
    if index >= 28 || game.plies() > 100 {
        return Ok(false);
    }
    game.reserve(1)?;
    let m = Move::To {
        piece: Piece::at(index),
        place,
    };
    if !game.is_legal(m.again()) {
        return Ok(false);
    }
    game.play(m);
    Ok(true)
}

/// The value of the position `depth` plies deep; `None` if the game is too long to go on.
fn worth(alloc: Global, game: &mut PlainGame, depth: u32) -> Result<Option<i32>, AllocError>
    requires { depth ≤ 64 }
{
    if game.plies() > 100 {
        return Ok(None);
    }
    game.reserve(depth)?;
    let mut stack = MoveStack::new(alloc, 64)?;
    Ok(Some(minimax(game, depth, &mut stack)))
}

#[test]
fn counts_of_openings(rt: HostRuntime) -> Result<(), Fail> {
    assert_eq!(rt; counted(rt.alloc(), BASE, 0)?, 1);
    assert_eq!(rt; counted(rt.alloc(), BASE, 1)?, 4);
    assert_eq!(rt; counted(rt.alloc(), BASE, 2)?, 96);
    assert_eq!(rt; counted(rt.alloc(), BASE, 3)?, 1440);
    assert_eq!(rt; counted(rt.alloc(), ALL, 1)?, 7);
    assert_eq!(rt; counted(rt.alloc(), ALL, 2)?, 294);
    Ok(())
}

#[test]
fn worth_of_the_opening(rt: HostRuntime) -> Result<(), Fail> {
    let mut game = PlainGame::opening(rt.alloc(), BASE)?;
    assert_eq!(rt; worth(rt.alloc(), &mut game, 1)?, Some(0));
    assert_eq!(rt; worth(rt.alloc(), &mut game, 2)?, Some(10));
    assert_eq!(rt; game.plies(), 0);
    Ok(())
}

#[test]
fn worth_of_a_win(rt: HostRuntime) -> Result<(), Fail> {
    let mut game = PlainGame::opening(rt.alloc(), BASE)?;
    for (index, q, r) in BEFORE_A_WIN {
        assert!(rt; plays(&mut game, index, Place { q, r })?);
    }
    assert_eq!(rt; worth(rt.alloc(), &mut game, 1)?, Some(1_000_000));
    assert_eq!(rt; worth(rt.alloc(), &mut game, 2)?, Some(1_000_001));
    assert!(rt; plays(&mut game, 8, Place { q: 0, r: 2 })?);
    assert_eq!(rt; worth(rt.alloc(), &mut game, 0)?, Some(-1_000_000));
    assert_eq!(rt; worth(rt.alloc(), &mut game, 5)?, Some(-1_000_005));
    Ok(())
}
