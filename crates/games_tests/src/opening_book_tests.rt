//! The answers of a book of four short games.

ghost use Rattle.std.specs.Prelude.{◌≡◌};
ghost use Rattle.hive_model.specs.Histories.{position};
ghost use Rattle.hive_model.specs.Legal as rules;

use game_text::{played, read_game};
use hive_model::{Game, Move, MoveStack, Piece, Place, State};
use opening_book::MoveTally;
use plain_game::PlainGame;
use std::alloc::{AllocError, Global};
use std::test::Fail;

/// Black answers a lone spider with a grasshopper in two games, beside it on different sides, and
/// with an ant in one.
const GAMES: [&str; 3] = [
    "Base;InProgress;White[2];wS1;bG1 wS1/",
    "Base;InProgress;White[2];wS1;bG1 -wS1",
    "Base;InProgress;White[2];wS1;bA1 wS1-",
];

/// The game of a text, if it is one.
fn game_of(alloc: Global, text: &str) -> Result<Option<PlainGame>, AllocError> {
    if text.len() > 1000 {
        return Ok(None);
    }
    let Ok(parsed) = read_game::<PlainGame>(alloc, text.as_bytes()) else {
        return Ok(None);
    };
    let game = played(alloc, parsed.game_type, parsed.moves.items(), 0)?;
    Ok(Some(game))
}

/// Whether the game is over.
fn is_over(game: &PlainGame) -> bool
    ensures { result ≡ rules.is_over (position game.now.history) }
{
    match game.state() {
        State::NotStarted | State::InProgress => false,
        State::Draw | State::WhiteWins | State::BlackWins => true,
    }
}

/// What the book of these games answers at the position at the end of the first game; `None` if a
/// text is no game.
fn book_of(
    alloc: Global,
    first: &str,
    games: &[&str],
) -> Result<Option<Option<(Move, u64)>>, AllocError> {
    let Some(mut game) = game_of(alloc, first)? else {
        return Ok(None);
    };
    if is_over(&game) {
        return Ok(None);
    }
    let mut stack = MoveStack::new(alloc, 1)?;
    let mut tally = MoveTally::of(alloc, &mut game, &mut stack)?;
    for text in games {
        let Some(mut other) = game_of(alloc, text)? else {
            return Ok(None);
        };
        if tally.plies() > 1000 {
            return Ok(None);
        }
        tally.add(&mut other);
    }
    Ok(Some(tally.best()))
}

/// The move of the piece with this index to this place.
fn goes(index: u8, q: i32, r: i32) -> Move {
    let place = Place { q, r };
    if index < 28 {
        let piece = Piece::at(index);
        Move::To { piece, place }
    } else {
        Move::Pass
    }
}

#[test]
fn the_first_reply_beside_a_spider(rt: HostRuntime) -> Result<(), Fail> {
    let found = book_of(rt.alloc(), "Base;InProgress;Black[1];wS1", &GAMES)?.ok_or("games")?;
    assert_eq!(rt; found, Some((goes(19, -1, 0), 2)));
    Ok(())
}

#[test]
fn the_first_move_of_all(rt: HostRuntime) -> Result<(), Fail> {
    let found = book_of(rt.alloc(), "Base", &GAMES)?.ok_or("games")?;
    assert_eq!(rt; found, Some((goes(1, 0, 0), 3)));
    Ok(())
}

#[test]
fn no_games(rt: HostRuntime) -> Result<(), Fail> {
    let found = book_of(rt.alloc(), "Base;InProgress;Black[1];wS1", &[])?.ok_or("a game")?;
    assert_eq!(rt; found, None);
    Ok(())
}
