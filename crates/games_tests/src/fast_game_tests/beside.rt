//! Grown games on both boards: all answers of the games are the same, after each ply and after each
//! undo.

ghost use Rattle.std.specs.Prelude.{◌<◌};

use crate::fast_game_tests::{plays_move, takes_back};
use fast_game::FastGame;
use hive_model::{Board, Game, GameType, Move, MoveStack, Piece, Place};
use plain_game::PlainGame;
use std::alloc::{AllocError, Global};
use std::test::Fail;

/// The next number of a sequence that starts with a seed.
pub fn next_number(number: u32) -> u32 {
    number.wrapping_mul(1_664_525).wrapping_add(1_013_904_223)
}

/// One of the legal moves, if there is any.
pub fn any_move<G: Game>(
    alloc: Global,
    game: &mut G,
    number: u32,
) -> Result<Option<Move>, AllocError> {
    let mut lists = MoveStack::new(alloc, 1)?;
    game.list(&mut lists);
    let many = lists.level_len(0);
    if many == 0 {
        return Ok(None);
    }
    Ok(Some(lists.get(0, number / 65_536 % many)))
}

/// Whether there are two lists of moves, and they are the same.
fn are_same_lists(lists: &MoveStack) -> bool {
    if lists.levels() != 2 || lists.level_len(0) != lists.level_len(1) {
        return false;
    }
    for i in 0..lists.level_len(0) {
        if lists.get(0, i) != lists.get(1, i) {
            return false;
        }
    }
    true
}

/// Whether each piece has the same place and level on both boards, and is on the same piece.
fn have_same_pieces<A: Board, B: Board>(one: &A, other: &B) -> bool {
    for x in 0..28u8 {
        let piece = Piece::at(x);
        if one.spot(piece) != other.spot(piece) || one.under(piece) != other.under(piece) {
            return false;
        }
    }
    true
}

/// Whether the places of a column near the origin look the same on both boards.
fn are_same_columns<A: Board, B: Board>(one: &A, other: &B, q: i32) -> bool {
    for r in -8..9i32 {
        let place = Place { q, r };
        if one.top(place) != other.top(place) || one.height(place) != other.height(place) {
            return false;
        }
    }
    true
}

/// Whether the places near the origin look the same on both boards, and so do those 32 to the east,
/// which have the same cells.
fn are_same_boards<A: Board, B: Board>(one: &A, other: &B) -> bool {
    for q in -8..9i32 {
        if !are_same_columns(one, other, q) || !are_same_columns(one, other, q + 32) {
            return false;
        }
    }
    have_same_pieces(one, other)
}

/// Whether both games answer the same.
fn are_alike<G: Game, H: Game>(
    alloc: Global,
    one: &mut G,
    other: &mut H,
) -> Result<bool, AllocError> {
    let mut lists = MoveStack::new(alloc, 2)?;
    one.list(&mut lists);
    other.list(&mut lists);
    Ok(
        are_same_lists(&lists)
            && one.evaluate() == other.evaluate()
            && one.key() == other.key()
            && one.state() == other.state()
            && one.side() == other.side()
            && one.turn() == other.turn()
            && are_same_boards(one, other),
    )
}

/// Plays up to `plies` moves on both games, and answers whether they stay alike.
fn grow_alike<G: Game, H: Game>(
    alloc: Global,
    one: &mut G,
    other: &mut H,
    seed: u32,
    plies: u32,
) -> Result<bool, AllocError> {
    let mut number = seed;
    for _ in 0..plies {
        number = next_number(number);
        let Some(m) = any_move(alloc, one, number)? else {
            return Ok(true);
        };
        if !plays_move(one, m.again())? || !plays_move(other, m)? {
            return Ok(false);
        }
        if !are_alike(alloc, one, other)? {
            return Ok(false);
        }
    }
    Ok(true)
}

/// Undoes up to `plies` moves on both games, and answers whether they stay alike.
fn shrink_alike<G: Game, H: Game>(
    alloc: Global,
    one: &mut G,
    other: &mut H,
    plies: u32,
) -> Result<bool, AllocError> {
    for _ in 0..plies {
        if !takes_back(one) {
            return Ok(!takes_back(other));
        }
        if !takes_back(other) || !are_alike(alloc, one, other)? {
            return Ok(false);
        }
    }
    Ok(true)
}

/// Whether a game that grows from a seed is the same on both boards, forward and back.
fn is_alike(alloc: Global, game_type: GameType, seed: u32) -> Result<bool, AllocError> {
    let mut plain = PlainGame::opening(alloc, game_type)?;
    let mut fast = FastGame::opening(alloc, game_type)?;
    let there = grow_alike(alloc, &mut plain, &mut fast, seed, 30)?;
    let back = shrink_alike(alloc, &mut plain, &mut fast, 31)?;
    Ok(there && back && plain.plies() == 0 && fast.plies() == 0)
}

/// The first seed among these whose game differs.
fn first_other(alloc: Global, game_type: GameType, seeds: u32) -> Result<Option<u32>, AllocError> {
    for seed in 0..seeds {
        if !is_alike(alloc, game_type, seed)? {
            return Ok(Some(seed));
        }
    }
    Ok(None)
}

#[test]
fn twenty_grown_games(rt: HostRuntime) -> Result<(), Fail> {
    let base = GameType {
        mosquito: false,
        ladybug: false,
        pillbug: false,
    };
    let all = GameType {
        mosquito: true,
        ladybug: true,
        pillbug: true,
    };
    assert_eq!(rt; first_other(rt.alloc(), base, 5)?, None);
    assert_eq!(rt; first_other(rt.alloc(), all, 15)?, None);
    Ok(())
}
