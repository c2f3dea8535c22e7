//! Cut places of a game, asked for before and after plays and undos.

use crate::fast_game_tests::{plays, takes_back};
use fast_game::FastGame;
use hive_model::{Game, GameType, Move, MoveStack, Place};
use std::alloc::{AllocError, Global};
use std::test::Fail;

const WHITE_QUEEN: u8 = 0;

const WHITE_SPIDER: u8 = 1;

const WHITE_BEETLE: u8 = 3;

const BLACK_QUEEN: u8 = 14;

const BLACK_SPIDER: u8 = 15;

/// Four pieces in a line: a queen, a spider of each side, a queen.
const LINE: [(u8, i32, i32); 4] = [
    (WHITE_SPIDER, 0, 0),
    (BLACK_SPIDER, 1, 0),
    (WHITE_QUEEN, -1, 0),
    (BLACK_QUEEN, 2, 0),
];

/// Whether the game lists a move of this piece.
fn may_move<G: Game>(alloc: Global, game: &mut G, index: u8) -> Result<bool, AllocError> {
    let mut lists = MoveStack::new(alloc, 1)?;
    game.list(&mut lists);
    for i in 0..lists.level_len(0) {
        if let Move::To { piece, .. } = lists.get(0, i)
            && piece.index() == index
        {
            return Ok(true);
        }
    }
    Ok(false)
}

/// Plays these pieces to these places in turn, and answers whether each move was legal.
fn plays_all<G: Game>(game: &mut G, moves: &[(u8, i32, i32)]) -> Result<bool, AllocError> {
    for (index, q, r) in moves {
        if *index >= 28 || !plays(game, *index, Place { q: *q, r: *r })? {
            return Ok(false);
        }
    }
    Ok(true)
}

/// The game in which these moves were played, if each is legal.
fn game_of(alloc: Global, moves: &[(u8, i32, i32)]) -> Result<Option<FastGame>, AllocError> {
    let base = GameType {
        mosquito: false,
        ladybug: false,
        pillbug: false,
    };
    let mut game = FastGame::opening(alloc, base)?;
    if !plays_all(&mut game, moves)? {
        return Ok(None);
    }
    Ok(Some(game))
}

#[test]
fn line_that_closes_and_opens(rt: HostRuntime) -> Result<(), Fail> {
    let alloc = rt.alloc();
    let Some(mut game) = game_of(alloc, &LINE)? else {
        assert!(rt; false, "a move is not legal");
        return Ok(());
    };
    assert!(rt; !may_move(alloc, &mut game, WHITE_SPIDER)?);
    assert!(rt; may_move(alloc, &mut game, WHITE_QUEEN)?);
    assert!(rt; plays_all(&mut game, &[(WHITE_QUEEN, 0, -1)])?);
    assert!(rt; !may_move(alloc, &mut game, BLACK_SPIDER)?);
    assert!(rt; plays_all(&mut game, &[(BLACK_QUEEN, 2, -1), (WHITE_QUEEN, 1, -1)])?);
    assert!(rt; may_move(alloc, &mut game, BLACK_SPIDER)?);
    assert!(rt; takes_back(&mut game));
    assert!(rt; !may_move(alloc, &mut game, WHITE_SPIDER)?);
    assert!(rt; takes_back(&mut game));
    assert!(rt; !may_move(alloc, &mut game, BLACK_SPIDER)?);
    assert!(rt; plays_all(&mut game, &[(BLACK_QUEEN, 2, -1), (WHITE_QUEEN, 1, -1)])?);
    assert!(rt; may_move(alloc, &mut game, BLACK_SPIDER)?);
    Ok(())
}

#[test]
fn beetle_on_a_cut_place(rt: HostRuntime) -> Result<(), Fail> {
    let alloc = rt.alloc();
    let Some(mut game) = game_of(alloc, &LINE)? else {
        assert!(rt; false, "a move is not legal");
        return Ok(());
    };
    assert!(rt; plays_all(&mut game, &[(WHITE_BEETLE, 0, -1), (BLACK_QUEEN, 2, -1)])?);
    assert!(rt; !may_move(alloc, &mut game, WHITE_SPIDER)?);
    assert!(rt; plays_all(&mut game, &[(WHITE_BEETLE, 0, 0), (BLACK_QUEEN, 2, 0)])?);
    assert!(rt; may_move(alloc, &mut game, WHITE_BEETLE)?);
    assert!(rt; takes_back(&mut game) && takes_back(&mut game));
    assert!(rt; !may_move(alloc, &mut game, WHITE_SPIDER)?);
    assert!(rt; may_move(alloc, &mut game, WHITE_BEETLE)?);
    Ok(())
}
