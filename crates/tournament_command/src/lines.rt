//! What a single line tells.
ghost use Rattle.std.specs.Prelude.{
  ◌≡◌,
  ◌≢◌,
  ◌≤◌,
  ◌++◌,
  true,
  length,
  None,
  IfOk,
  MatchOption,
  OnOk,
};
ghost use Rattle.hive_model.specs.Games.{IsGame};
ghost use Rattle.io_edge.specs.Lines.{Text, greatest_line};
ghost use Rattle.command_runs.specs.OneGame.{if_open};
ghost use Rattle.tournament_games.specs.Texts.{numbers_text};
ghost use Rattle.tournament_record.specs.Openings.{IsOpening};
ghost use Rattle.tournament_command.specs.Intakes.{
  ended_in,
  is_empty,
  is_game_line,
  is_head_line,
  opening_in,
  typed_moves,
};

use command_runs::is_over;
use game_text::{GameFault, Parsed, played, read_game};
use hive_model::{Game, GameType, MoveList, ReplyText};
use match_command::write_number;
use std::alloc::{AllocError, Global};
use tournament_core::{Fixture, GameEnd};
use tournament_games::end_of_text;

/// Whether no byte stands in the line.
pub(crate) fn is_empty(text: &[u8]) -> bool
    ensures { result ≡ is_empty (Text text.now) }
{
    text == b"".as_slice()
}

/// Whether the line is a head, of this tournament or of another one.
pub(crate) fn is_head_line(text: &[u8]) -> bool
    ensures { result ≡ is_head_line (Text text.now) }
{
    text.starts_with(b"tournament ".as_slice())
}

/// A word, and behind it the number of a game and those of its engines, each with a space.
fn start_of(
    alloc: Global,
    word: &[u8],
    number: u64,
    fixture: Fixture,
) -> Result<ReplyText, AllocError>
    ensures { IfOk result (λ text. text ≡ word.now ++ numbers_text number fixture) }
{
    let mut text = ReplyText::new(alloc);
    text.push_all(word)?;
    write_number(&mut text, number)?;
    text.push(b' ')?;
    write_number(&mut text, u64::from(fixture.white))?;
    text.push(b' ')?;
    write_number(&mut text, u64::from(fixture.black))?;
    text.push(b' ')?;
    Ok(text)
}

/// Whether the line tells the game with this number and these engines.
pub(crate) fn is_game_line(
    alloc: Global,
    number: u64,
    fixture: Fixture,
    text: &[u8],
) -> Result<bool, AllocError>
    ensures { IfOk result (λ is. is ≡ is_game_line number fixture (Text text.now)) }
{
    let start = start_of(alloc, b"game ", number, fixture)?;
    Ok(text.starts_with(start.items()))
}

/// How the game with this number and these engines ended, where the line is that of its verdict.
pub(crate) fn ended_in(
    alloc: Global,
    number: u64,
    fixture: Fixture,
    text: &[u8],
) -> Result<Option<GameEnd>, AllocError>
    ensures { IfOk result (λ ended. ended ≡ ended_in number fixture (Text text.now)) }
{
    let start = start_of(alloc, b"verdict ", number, fixture)?;
    let front = start.items();
    if text.starts_with(front) {
        Ok(end_of_text(&text[front.len()..]))
    } else {
        Ok(None)
    }
}

/// Whether two game types are the same.
fn is_type(game_type: GameType, other: GameType) -> bool
    ensures same { result ≡ true → game_type ≡ other }
    ensures other { game_type ≡ other → result ≡ true }
{
    game_type == other
}

/// The moves of a game, if it is of this type and not over.
fn opening_by<G: Game + Drop>(
    alloc: Global,
    game_type: GameType,
    game: Parsed,
) -> Result<Option<MoveList>, AllocError>
    requires legal { IsGame game.game_type game.moves }
    requires few { length game.moves ≤ 5000 }
    ensures value { IfOk result (λ moves. moves ≡ typed_moves game_type (if_open game)) }
    ensures opening { IfOk result (λ moves.
        MatchOption moves (Unit {0}) (IsOpening game_type)) }
{
    let under_way: G = played(alloc, game.game_type, game.moves.items(), 0)?;
    if is_over(&under_way) {
        return Ok(None);
    }
    if is_type(game.game_type, game_type) {
        Ok(Some(game.moves))
    } else {
        Ok(None)
    }
}

/// A text that is no game is no opening; want of memory says nothing of the text.
fn none_by(fault: GameFault) -> Result<Option<MoveList>, AllocError>
    ensures none { IfOk result (λ moves. moves ≡ None) }
    ensures told { OnOk result (fault ≢ GameFault.Memory) }
{
    match fault {
        GameFault::Memory => Err(AllocError),
        _ => Ok(None),
    }
}

/// The moves of the opening that a line is: a game of this type that is not over.
pub(crate) fn opening_in<G: Game + Drop>(
    alloc: Global,
    game_type: GameType,
    text: &[u8],
) -> Result<Option<MoveList>, AllocError>
    requires { length text.now ≤ greatest_line }
    ensures value { IfOk result (λ moves. moves ≡ opening_in game_type (Text text.now)) }
    ensures opening { IfOk result (λ moves.
        MatchOption moves (Unit {0}) (IsOpening game_type)) }
{
    match read_game::<G>(alloc, text) {
        Ok(game) => opening_by::<G>(alloc, game_type, game),
        Err(fault) => none_by(fault),
    }
}
