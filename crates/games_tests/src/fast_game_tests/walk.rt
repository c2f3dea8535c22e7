//! A game whose four pieces walk away from the origin, so that each cell of the grid is used again
//! and again.

use crate::fast_game_tests::{plays, takes_back};
use fast_game::FastGame;
use hive_model::{Board, Game, GameType, Piece, Place, Spot};
use std::alloc::AllocError;
use std::test::Fail;

const BASE: GameType = GameType {
    mosquito: false,
    ladybug: false,
    pillbug: false,
};

/// Each side places its ant and its queen. Then both queens go to where the walk begins.
const FIRST: [(u8, i32, i32); 6] = [
    (8, 0, 0),
    (22, 1, 0),
    (0, -1, 0),
    (14, 2, 0),
    (0, 0, -1),
    (14, 1, 1),
];

/// The moves of each round of the walk, two places to the east and one to the north of the round
/// before it.
const ROUND: [(u8, i32, i32); 6] = [
    (0, 1, -1),
    (14, 2, 0),
    (8, 2, -1),
    (22, 3, -1),
    (0, 2, -2),
    (14, 3, 0),
];

/// Plays these moves, shifted `times` times by two places to the east and one to the north, if each
/// is legal.
fn plays_all<G: Game>(
    game: &mut G,
    moves: &[(u8, i32, i32)],
    times: i32,
) -> Result<bool, AllocError> {
    for (index, q, r) in moves {
        let place = Place {
            q: q.saturating_add(times).saturating_add(times),
            r: r.saturating_sub(times),
        };
        if *index >= 28 || !plays(game, *index, place)? {
            return Ok(false);
        }
    }
    Ok(true)
}

/// Plays the first moves and `rounds` rounds of the walk, if each is legal.
fn walks<G: Game>(game: &mut G, rounds: i32) -> Result<bool, AllocError> {
    if !plays_all(game, &FIRST, 0)? {
        return Ok(false);
    }
    for times in 0..rounds {
        if !plays_all(game, &ROUND, times)? {
            return Ok(false);
        }
    }
    Ok(true)
}

#[test]
fn six_hundred_plies_away_and_back(rt: HostRuntime) -> Result<(), Fail> {
    let queen = Piece::at(0);
    let mut game = FastGame::opening(rt.alloc(), BASE)?;
    let key = game.key();
    assert!(rt; walks(&mut game, 99)?);
    assert_eq!(rt; game.plies(), 600);
    let far = Place { q: 198, r: -100 };
    assert_eq!(rt;
        game.spot(queen),
        Some(Spot {
            place: far,
            level: 0
        })
    );
    assert_eq!(rt; game.top(far), Some(queen));
    assert_eq!(rt; game.height(Place { q: 6, r: -4 }), 0);
    for _ in 0..600 {
        assert!(rt; takes_back(&mut game));
    }
    assert!(rt; !takes_back(&mut game));
    assert!(rt; game.key() == key);
    Ok(())
}
