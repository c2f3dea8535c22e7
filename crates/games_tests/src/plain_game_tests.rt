//! Short games: their lists of moves, played and undone.

ghost use Rattle.std.specs.Prelude.{◌<◌};

use hive_model::{Game, GameType, Move, MoveStack, Piece, Place};
use plain_game::PlainGame;
use std::alloc::{AllocError, Global};
use std::test::Fail;

const BASE: GameType = GameType {
    mosquito: false,
    ladybug: false,
    pillbug: false,
};

const ALL: GameType = GameType {
    mosquito: true,
    ladybug: true,
    pillbug: true,
};

const ORIGIN: Place = Place { q: 0, r: 0 };

/// Whether the move takes the piece of this index to the place.
fn goes(m: &Move, index: u8, place: Place) -> bool {
    match m {
        Move::To {
            piece,
            place: target,
        } => piece.index() == index && target.is(place),
        Move::Pass => false,
    }
}

/// Whether the legal moves are those of each of the pieces to each of the places.
fn lists(
    alloc: Global,
    game: &mut PlainGame,
    pieces: &[u8],
    places: &[Place],
) -> Result<bool, AllocError> {
    let mut stack = MoveStack::new(alloc, 1)?;
    game.list(&mut stack);
    let mut next = 0u32;
    for index in pieces {
        for place in places {
            if next >= stack.level_len(0) || !goes(&stack.get(0, next), *index, *place) {
                return Ok(false);
            }
            next += 1;
        }
    }
    Ok(next == stack.level_len(0))
}

/// Plays the piece to the place, if that is legal.
fn plays(game: &mut PlainGame, index: u8, place: Place) -> Result<bool, AllocError>
    requires { index < 28 }
{
    if game.plies() > 100 {
        return Ok(false);
    }
    game.reserve(1)?;
    let m = Move::To {
        piece: Piece::at(index),
        place,
    };
    if !game.is_legal(m.again()) {
        return Ok(false);
    }
    game.play(m);
    Ok(true)
}

/// Plays each of these pieces to its place, one after another, if each is legal.
fn plays_all(game: &mut PlainGame, moves: &[(u8, i32, i32)]) -> Result<bool, AllocError> {
    for (index, q, r) in moves {
        if *index >= 28 || !plays(game, *index, Place { q: *q, r: *r })? {
            return Ok(false);
        }
    }
    Ok(true)
}

/// Undoes the last move, if there is one.
fn takes_back(game: &mut PlainGame) -> bool {
    if game.plies() == 0 {
        return false;
    }
    game.undo();
    true
}

#[test]
fn first_moves(rt: HostRuntime) -> Result<(), Fail> {
    let mut base = PlainGame::opening(rt.alloc(), BASE)?;
    assert!(rt; lists(rt.alloc(), &mut base, &[1, 3, 5, 8], &[ORIGIN])?);
    let mut all = PlainGame::opening(rt.alloc(), ALL)?;
    assert!(rt; lists(rt.alloc(), &mut all, &[1, 3, 5, 8, 11, 12, 13], &[ORIGIN])?);
    Ok(())
}

#[test]
fn played_and_taken_back(rt: HostRuntime) -> Result<(), Fail> {
    let mut game = PlainGame::opening(rt.alloc(), BASE)?;
    let round = [
        Place { q: -1, r: 0 },
        Place { q: -1, r: 1 },
        Place { q: 0, r: -1 },
        Place { q: 0, r: 1 },
        Place { q: 1, r: -1 },
        Place { q: 1, r: 0 },
    ];
    assert!(rt; plays(&mut game, 1, ORIGIN)?);
    assert!(rt; lists(rt.alloc(), &mut game, &[15, 17, 19, 22], &round)?);
    assert!(rt; plays(&mut game, 15, Place { q: 1, r: 0 })?);
    assert!(rt; !plays(&mut game, 0, Place { q: 0, r: 1 })?);
    assert!(rt; plays(&mut game, 0, Place { q: -1, r: 0 })?);
    assert!(rt; plays(&mut game, 14, Place { q: 2, r: 0 })?);
    assert!(rt; plays(&mut game, 0, Place { q: -1, r: 1 })?);
    for _ in 0..4 {
        assert!(rt; takes_back(&mut game));
    }
    assert!(rt; lists(rt.alloc(), &mut game, &[15, 17, 19, 22], &round)?);
    assert!(rt; takes_back(&mut game));
    assert!(rt; lists(rt.alloc(), &mut game, &[1, 3, 5, 8], &[ORIGIN])?);
    assert!(rt; !takes_back(&mut game));
    assert!(rt; game.played() == 5);
    Ok(())
}

/// Each side has the queen, the first spider and the first ant on the board. The last ply placed
/// black's ant.
const LAST_ANT: [(u8, i32, i32); 6] = [
    (1, 0, 0),
    (15, 1, 0),
    (0, -1, 0),
    (14, 2, 0),
    (8, -1, 1),
    (22, 2, -1),
];

/// The same placements, white's in another order.
const LAST_ANT_AGAIN: [(u8, i32, i32); 6] = [
    (1, 0, 0),
    (15, 1, 0),
    (8, -1, 1),
    (14, 2, 0),
    (0, -1, 0),
    (22, 2, -1),
];

/// The same placements, black's in another order: the last ply placed black's queen.
const LAST_QUEEN: [(u8, i32, i32); 6] = [
    (1, 0, 0),
    (15, 1, 0),
    (0, -1, 0),
    (22, 2, -1),
    (8, -1, 1),
    (14, 2, 0),
];

#[test]
fn keys(rt: HostRuntime) -> Result<(), Fail> {
    let mut one = PlainGame::opening(rt.alloc(), BASE)?;
    let mut same = PlainGame::opening(rt.alloc(), BASE)?;
    let mut other = PlainGame::opening(rt.alloc(), BASE)?;
    let all = PlainGame::opening(rt.alloc(), ALL)?;
    assert!(rt; one.key() == same.key());
    assert!(rt; one.key() != all.key());
    assert!(rt; plays_all(&mut one, &LAST_ANT)?);
    assert!(rt; one.key() != same.key());
    assert!(rt; plays_all(&mut same, &LAST_ANT_AGAIN)?);
    assert!(rt; plays_all(&mut other, &LAST_QUEEN)?);
    assert!(rt; one.key() == same.key());
    assert!(rt; one.key() != other.key());
    Ok(())
}

/// Each queen has two neighbours, and the spiders hold the hive together. White's queen and ant are
/// free, and so is the one of black's queen and ant that does not rest. Before the last ply black's
/// queen had one neighbour, and white's ant rested.
#[test]
fn worth(rt: HostRuntime) -> Result<(), Fail> {
    let mut game = PlainGame::opening(rt.alloc(), BASE)?;
    assert!(rt; game.evaluate() == 0);
    assert!(rt; plays_all(&mut game, &LAST_ANT)?);
    assert!(rt; game.evaluate() == 10);
    assert!(rt; takes_back(&mut game));
    assert!(rt; game.evaluate() == 40);
    let mut other = PlainGame::opening(rt.alloc(), BASE)?;
    assert!(rt; plays_all(&mut other, &LAST_QUEEN)?);
    assert!(rt; other.evaluate() == 4);
    Ok(())
}
