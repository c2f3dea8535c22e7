//! Reads and counts the games after the first line of the input, one at a time.

ghost use Rattle.std.specs.Prelude.{◌≡◌, ℕ, ◌+◌, ◌<◌, ◌≤◌, List, length, Some, Err, IfOk, IfErr};
ghost use Rattle.std.specs.Prelude.{MatchOption, MatchResult};
ghost use Rattle.io_edge.specs.Outside.{HasCause};
ghost use Rattle.line_feed.specs.Feed.{Ends, input_limit};
ghost use Rattle.io_edge.specs.Lines.{Line as AnyLine, greatest_line};
ghost use Rattle.game_text.specs.Reading.{game_of};
ghost use Rattle.game_text.specs.declared.parsed.Parsed.{Parsed as AnyGame};
ghost use Rattle.opening_book.specs.Book.{BookGame};
ghost use Rattle.command_runs.specs.Answered.{IsUnanswered};
ghost use Rattle.command_runs.specs.Asking.{Says, WereTaken};
ghost use Rattle.command_runs.specs.OneGame.{bad_line};
ghost use Rattle.book_command.specs.Asked.{as_played};
ghost use Rattle.book_command.specs.Runs.{about_book};
ghost use Rattle.book_command.specs.Text.{refusal};
ghost use Rattle.book_command.specs.Reading.{
  Counted,
  GivesNone,
  GivesPlayed,
  HasBegun,
  IsWhole,
  LacksGame,
  played_by,
};

use command_runs::{NoGame, line_for, numbered};
use game_text::{GameFault, played, read_game};
use hive_model::{Game, ReplyText};
use io_edge::Source;
use line_feed::{LineAnswer, LineReader};
use opening_book::MoveTally;
use std::alloc::{AllocError, Global};

/// The line that refuses the line of this number, with its LF.
fn refusal_line(alloc: Global, number: u64) -> Result<ReplyText, AllocError>
    ensures { IfOk result (λ t. t ≡ bad_line (refusal number)) }
{
    let why = numbered(alloc, b"line ", number)?;
    line_for(alloc, b"bad ", why.items())
}

/// The refusal of the line of this number, which is no game.
fn refused(alloc: Global, number: u64) -> NoGame
    ensures { Says result (refusal number) }
{
    match refusal_line(alloc, number) {
        Ok(text) => NoGame::Bad(text),
        Err(_) => NoGame::Memory,
    }
}

/// The game that the text is, finished or not, at its end. The text is the line of this number.
fn game_of<G: Game + Drop>(alloc: Global, text: &[u8], number: u64) -> Result<G, NoGame>
    requires { length text.now ≤ greatest_line }
    ensures game { IfOk result (λ g.
        as_played (game_of text.now) ≡ Some (played_by (G.history g))) }
    ensures none { IfErr result (λ e. LacksGame e number (as_played (game_of text.now))) }
{
    match read_game::<G>(alloc, text) {
        Ok(game) => Ok(played(alloc, game.game_type, game.moves.items(), 0)?),
        Err(GameFault::Memory) => Err(NoGame::Memory),
        Err(_) => Err(refused(alloc, number)),
    }
}

/// Reads the next line, which has this number, and plays its game. It answers `None` at the end of
/// the input.
fn next_game<S: Source, G: Game + Drop>(
    alloc: Global,
    reader: &mut LineReader,
    input: &mut S,
    number: u64,
) -> Result<Option<G>, NoGame>
    ensures given { (bytes : List ℕ)
        × WereTaken bytes reader.old reader.new (S.rest input.old) (S.rest input.new)
        × MatchResult result
        (λ o. MatchOption o
        (Ends reader.old bytes reader.new (S.rest input.new))
        (λ g. (line : AnyLine)
        × GivesPlayed (G.history g) bytes reader.old reader.new (S.rest input.new) line))
        (λ e. GivesNone e number bytes reader.old reader.new (S.rest input.new)) }
    ensures within { reader.new.passed ≤ input_limit }
    ensures cause { HasCause (result ≡ Err NoGame.ReadFault)
        (S.read_faults input.old) (S.read_faults input.new) }
{
    match reader.next_line(input) {
        LineAnswer::Line => match game_of(alloc, reader.line(), number) {
            Ok(game) => Ok(Some(game)),
            Err(none) => Err(none),
        },
        LineAnswer::TooLong => Err(refused(alloc, number)),
        LineAnswer::End => Ok(None),
        LineAnswer::Failed => Err(NoGame::ReadFault),
        LineAnswer::Full => Err(NoGame::InputFull),
    }
}

/// Reads the further lines of the input to its end, and counts the plies of each of their games.
/// The first line that is no game ends the reading.
pub(crate) fn count_games<S: Source, G: Game + Drop>(
    alloc: Global,
    reader: &mut LineReader,
    input: &mut S,
    tally: &mut MoveTally,
) -> Result<(), NoGame>
    requires { tally.old.plies ≡ 0 }
    ensures games { IfOk result (λ _. (games : List BookGame) × Counted games tally.old tally.new
        × ((bytes : List ℕ) (start : AnyGame)
        → HasBegun bytes start reader.old (S.rest input.old)
        → IsWhole bytes (S.rest input.new) start games)) }
    ensures none { IfErr result (λ e. (bytes : List ℕ) (start : AnyGame)
        → HasBegun bytes start reader.old (S.rest input.old)
        → IsUnanswered about_book e bytes (S.rest input.new)) }
    ensures cause { HasCause (result ≡ Err NoGame.ReadFault)
        (S.read_faults input.old) (S.read_faults input.new) }
{
    let mut number: u64 = 2;
    'games: loop {
        match next_game::<S, G>(alloc, reader, input, number) {
            Ok(Some(mut game)) => {
                tally.add(&mut game);
                number += 1;
            }
            Ok(None) => return Ok(()),
            Err(none) => return Err(none),
        }
    }
}
