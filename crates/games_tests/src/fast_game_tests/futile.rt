//! The moves that a game skips at the last ply, compared with plays and evaluations.

use crate::fast_game_tests::beside::{any_move, next_number};
use crate::fast_game_tests::{plays_move, takes_back};
use fast_game::FastGame;
use hive_model::{Game, GameType, Move, MoveStack};
use std::alloc::{AllocError, Global};
use std::test::Fail;

/// Counts over the legal moves of all positions: how many there were, and how many the game skipped
/// when alpha was the value of the best. The last count is of positions in which it skipped every
/// move of that value when alpha was one less.
#[derive(Clone, Copy, Debug, PartialEq, Eq)]
struct Passed {
    moves: u32,
    passed: u32,
    lost: u32,
}

const NOTHING: Passed = Passed {
    moves: 0,
    passed: 0,
    lost: 0,
};

/// What the move is worth to the side that makes it with no ply left after it, by a play, an
/// evaluation and an undo. `None` if it ends the game.
fn played_reply(game: &mut FastGame, m: Move) -> Result<Option<i32>, AllocError> {
    if !plays_move(game, m)? {
        return Ok(None);
    }
    let is_over = game.state().is_over();
    let worth = game.evaluate();
    if !takes_back(game) || is_over {
        return Ok(None);
    }
    Ok(Some(0i32.saturating_sub(worth)))
}

/// The value of the best move that does not end the game, if there is one.
fn best_reply(alloc: Global, game: &mut FastGame) -> Result<Option<i32>, AllocError> {
    let mut lists = MoveStack::new(alloc, 1)?;
    game.list(&mut lists);
    let mut best = None;
    for i in 0..lists.level_len(0) {
        best = best.max(played_reply(game, lists.get(0, i))?);
    }
    Ok(best)
}

/// The place of the next move that the game does not skip.
fn next_of(alloc: Global, game: &mut FastGame, from: u32, alpha: i32) -> Result<u32, AllocError> {
    let mut lists = MoveStack::new(alloc, 1)?;
    game.list(&mut lists);
    if from > lists.level_len(0) {
        return Ok(from);
    }
    Ok(game.next_candidate(&lists, 0, from, alpha))
}

/// Whether the game does not skip some move of value `best` when alpha is one less.
fn is_found(alloc: Global, game: &mut FastGame, best: i32) -> Result<bool, AllocError> {
    let mut lists = MoveStack::new(alloc, 1)?;
    game.list(&mut lists);
    for i in 0..lists.level_len(0) {
        if next_of(alloc, game, i, best.saturating_sub(1))? != i {
            continue;
        }
        if played_reply(game, lists.get(0, i))? == Some(best) {
            return Ok(true);
        }
    }
    Ok(false)
}

/// Counts all legal moves of the position.
fn ask_all(alloc: Global, game: &mut FastGame, passed: &mut Passed) -> Result<(), AllocError> {
    let Some(best) = best_reply(alloc, game)? else {
        return Ok(());
    };
    for i in 0..game.count_moves() {
        passed.moves = passed.moves.saturating_add(1);
        if next_of(alloc, game, i, best)? > i {
            passed.passed = passed.passed.saturating_add(1);
        }
    }
    if !is_found(alloc, game, best)? {
        passed.lost = passed.lost.saturating_add(1);
    }
    Ok(())
}

/// Counts all legal moves of a game that grows from a seed, ply after ply.
fn ask_game(
    alloc: Global,
    game_type: GameType,
    seed: u32,
    plies: u32,
    passed: &mut Passed,
) -> Result<(), AllocError> {
    let mut game = FastGame::opening(alloc, game_type)?;
    let mut number = seed;
    for _ in 0..plies {
        ask_all(alloc, &mut game, passed)?;
        number = next_number(number);
        let Some(m) = any_move(alloc, &mut game, number)? else {
            return Ok(());
        };
        if !plays_move(&mut game, m)? {
            return Ok(());
        }
    }
    Ok(())
}

/// A game of each of the eight types. If alpha is the value of the best move, at least three of
/// four moves are skipped. If it is one less, some move of that value is not.
#[test]
fn eight_grown_games(rt: HostRuntime) -> Result<(), Fail> {
    let mut passed = NOTHING;
    for mosquito in [false, true] {
        for ladybug in [false, true] {
            for pillbug in [false, true] {
                let game_type = GameType {
                    mosquito,
                    ladybug,
                    pillbug,
                };
                ask_game(rt.alloc(), game_type, 1, 30, &mut passed)?;
            }
        }
    }
    assert_eq!(rt; passed.lost, 0);
    let is_most = passed.passed as u64 * 4 >= passed.moves as u64 * 3;
    assert!(rt; is_most, "passed over: {passed:?}");
    assert!(rt; passed.moves > 8_000, "passed over: {passed:?}");
    Ok(())
}
