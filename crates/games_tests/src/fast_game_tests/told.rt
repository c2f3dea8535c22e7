//! The value of a move found without a play, and the bounds of it, compared with plays and
//! evaluations.

use crate::fast_game_tests::beside::{any_move, next_number};
use crate::fast_game_tests::{plays_move, takes_back};
use fast_game::FastGame;
use hive_model::{Board, Game, GameType, Move, MoveStack};
use std::alloc::{AllocError, Global};
use std::test::Fail;

/// Counts over the legal moves that were asked about. How many there were; how many were valued
/// without a play; how many of these wrongly; and how many of these were throws and climbs. Of
/// those not valued: how many have a bound, and how many bounds are within 20 of the value; how
/// many have none. For how many a quiet reply gives an upper bound, and how many of these bounds
/// are wrong.
#[derive(Clone, Copy, Debug, PartialEq, Eq)]
struct Told {
    moves: u32,
    told: u32,
    wrong: u32,
    throws: u32,
    climbs: u32,
    bounds: u32,
    close: u32,
    no_bounds: u32,
    most: u32,
    most_wrong: u32,
}

const NOTHING: Told = Told {
    moves: 0,
    told: 0,
    wrong: 0,
    throws: 0,
    climbs: 0,
    bounds: 0,
    close: 0,
    no_bounds: 0,
    most: 0,
    most_wrong: 0,
};

/// The value of the position after the move, if the game finds it without a play.
fn value_of(game: &mut FastGame, m: Move) -> Option<i32> {
    if !game.is_legal(m.again()) {
        return None;
    }
    game.value_after(m)
}

/// A lower bound of the value of the position after the move, if the game gives one.
fn least_of(game: &mut FastGame, m: Move) -> Option<i32> {
    if !game.is_legal(m.again()) {
        return None;
    }
    game.least_after(m)
}

/// An upper bound of what the move is worth with one ply after it, if the game gives one.
fn most_of(game: &mut FastGame, m: Move) -> Option<i32> {
    if !game.is_legal(m.again()) {
        return None;
    }
    game.most_after(m)
}

/// The value of the position after the move, by a play, an evaluation and an undo; `None` if the
/// game then is over.
fn played_worth(game: &mut FastGame, m: Move) -> Result<Option<i32>, AllocError> {
    if !plays_move(game, m)? {
        return Ok(None);
    }
    let is_over = game.state().is_over();
    let worth = game.evaluate();
    if !takes_back(game) || is_over {
        return Ok(None);
    }
    Ok(Some(worth))
}

/// Whether there is a legal move after which the game goes on and is worth at most this.
fn has_reply(alloc: Global, game: &mut FastGame, most: i32) -> Result<bool, AllocError> {
    let mut lists = MoveStack::new(alloc, 1)?;
    game.list(&mut lists);
    for i in 0..lists.level_len(0) {
        let Some(worth) = played_worth(game, lists.get(0, i))? else {
            continue;
        };
        if worth <= most {
            return Ok(true);
        }
    }
    Ok(false)
}

/// Whether the move is worth at most this with one ply after it, by a search of that ply.
fn is_most(alloc: Global, game: &mut FastGame, m: Move, most: i32) -> Result<bool, AllocError> {
    if !plays_move(game, m)? {
        return Ok(false);
    }
    let has_reply = has_reply(alloc, game, most)?;
    Ok(takes_back(game) && has_reply)
}

/// Counts a move that was valued without a play.
fn count_told(game: &FastGame, m: &Move, told: &mut Told) {
    told.told = told.told.saturating_add(1);
    if let Move::To { piece, place } = m {
        if piece.colour() != game.side() {
            told.throws = told.throws.saturating_add(1);
        }
        if game.height(*place) > 0 {
            told.climbs = told.climbs.saturating_add(1);
        }
    }
}

/// Asks about one more move: its value and the lower bound, if the game gives them, compared with a
/// play.
fn ask_worth(game: &mut FastGame, m: Move, told: &mut Told) -> Result<(), AllocError> {
    let value = value_of(game, m.again());
    if value.is_some() {
        count_told(game, &m, told);
    }
    let Some(least) = least_of(game, m.again()) else {
        told.no_bounds = told.no_bounds.saturating_add(1);
        return Ok(());
    };
    let played = played_worth(game, m)?;
    let worth = played.unwrap_or(i32::MIN);
    if worth < least || value.unwrap_or(worth) != worth || value.unwrap_or(least) != least {
        told.wrong = told.wrong.saturating_add(1);
    }
    if value.is_none() {
        told.bounds = told.bounds.saturating_add(1);
        if worth.saturating_sub(least) <= 20 {
            told.close = told.close.saturating_add(1);
        }
    }
    Ok(())
}

/// The same move: the upper bound with one ply after it, if the game gives one, compared with a
/// search.
fn ask_most(
    alloc: Global,
    game: &mut FastGame,
    m: Move,
    told: &mut Told,
) -> Result<(), AllocError> {
    let Some(most) = most_of(game, m.again()) else {
        return Ok(());
    };
    told.most = told.most.saturating_add(1);
    if !is_most(alloc, game, m, most)? {
        told.most_wrong = told.most_wrong.saturating_add(1);
    }
    Ok(())
}

/// Asks about all legal moves of the position.
fn ask_all(alloc: Global, game: &mut FastGame, told: &mut Told) -> Result<(), AllocError> {
    let mut lists = MoveStack::new(alloc, 1)?;
    game.list(&mut lists);
    for i in 0..lists.level_len(0) {
        told.moves = told.moves.saturating_add(1);
        ask_worth(game, lists.get(0, i), told)?;
        ask_most(alloc, game, lists.get(0, i), told)?;
    }
    Ok(())
}

/// Asks about all legal moves of a game that grows from a seed, ply after ply.
fn ask_game(
    alloc: Global,
    game_type: GameType,
    seed: u32,
    plies: u32,
    told: &mut Told,
) -> Result<(), AllocError> {
    let mut game = FastGame::opening(alloc, game_type)?;
    let mut number = seed;
    for _ in 0..plies {
        ask_all(alloc, &mut game, told)?;
        number = next_number(number);
        let Some(m) = any_move(alloc, &mut game, number)? else {
            return Ok(());
        };
        if !plays_move(&mut game, m)? {
            return Ok(());
        }
    }
    Ok(())
}

/// Five games of each of the eight types. No move is valued wrongly. Of 100 moves at least 85 are
/// valued without a play, and at least 96 are valued or have a lower bound. For at least 60 a quiet
/// reply gives an upper bound. Of 100 lower bounds at least 85 are within 20 of the value. Throws
/// and climbs are among the moves valued.
#[test]
fn forty_grown_games(rt: HostRuntime) -> Result<(), Fail> {
    let mut told = NOTHING;
    for mosquito in [false, true] {
        for ladybug in [false, true] {
            for pillbug in [false, true] {
                let game_type = GameType {
                    mosquito,
                    ladybug,
                    pillbug,
                };
                for seed in 0..5u32 {
                    ask_game(rt.alloc(), game_type, seed, 30, &mut told)?;
                }
            }
        }
    }
    assert_eq!(rt; told.wrong, 0);
    let is_most = told.told as u64 * 100 >= told.moves as u64 * 85;
    assert!(rt; is_most, "told: {told:?}");
    let is_bounded = told.no_bounds as u64 * 100 <= told.moves as u64 * 4;
    assert!(rt; is_bounded, "told: {told:?}");
    let is_close = told.close as u64 * 100 >= told.bounds as u64 * 85;
    assert!(rt; is_close, "told: {told:?}");
    assert_eq!(rt; told.most_wrong, 0);
    let is_settled = told.most as u64 * 100 >= told.moves as u64 * 60;
    assert!(rt; is_settled, "told: {told:?}");
    assert!(rt; told.throws > 0 && told.climbs > 0, "told: {told:?}");
    assert!(rt; told.moves > 40_000, "told: {told:?}");
    Ok(())
}
