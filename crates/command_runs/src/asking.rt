//! Reads input that must be one line, a game that is not over.
ghost use Rattle.std.specs.Prelude.{◌≡◌, ℕ, ◌+◌, ◌≤◌, List, length, Err, IfOk, IfErr, MatchResult};
ghost use Rattle.io_edge.specs.Outside.{HasCause};
ghost use Rattle.line_feed.specs.Feed.{Ends};
ghost use Rattle.hive_model.specs.Histories.{position};
ghost use Rattle.hive_model.specs.Games.{IsGame};
ghost use Rattle.hive_model.specs.Legal as rules;
ghost use Rattle.io_edge.specs.Lines.{greatest_line};
ghost use Rattle.game_text.specs.Reading.{game_of};
ghost use Rattle.game_text.specs.declared.parsed.Parsed.{Parsed as AnyGame};
ghost use Rattle.command_runs.specs.Input.{WhereTold};
ghost use Rattle.command_runs.specs.OneGame.{IsAsked, if_open, open_game};
ghost use Rattle.command_runs.specs.Answered.{IsUnanswered};
ghost use Rattle.command_runs.specs.GameRun.{about_game};
ghost use Rattle.command_runs.specs.Asking.{
  GivesGame,
  GivesNone,
  GoesOn,
  IsReplayOf,
  IsUnderWay,
  Lacks,
  Resumes,
  Says,
  SaysFault,
  WereTaken,
};

use crate::no_game::NoGame;
use crate::reasons::{line_for, reason_of};
use game_text::{GameFault, Parsed, played, read_game};
use hive_model::{Game, State};
use io_edge::Source;
use line_feed::{LineAnswer, LineReader};
use std::alloc::Global;

/// The error that the input is not one game, for this reason.
fn bad(alloc: Global, why: &[u8]) -> NoGame
    ensures { Says result why.now }
{
    match line_for(alloc, b"bad ", why) {
        Ok(text) => NoGame::Bad(text),
        Err(_) => NoGame::Memory,
    }
}

/// The error that a line is not a game.
fn bad_game(alloc: Global, fault: GameFault) -> NoGame
    ensures { SaysFault result fault }
{
    match reason_of(alloc, fault) {
        Ok(why) => bad(alloc, why.items()),
        Err(_) => NoGame::Memory,
    }
}

/// Whether the game is over.
pub fn is_over<G: Game>(game: &G) -> bool
    ensures { result ≡ rules.is_over (position (G.history game.now)) }
{
    match game.state() {
        State::NotStarted | State::InProgress => false,
        State::Draw | State::WhiteWins | State::BlackWins => true,
    }
}

/// The game that was read, in progress and with room for this many more plies, if it is not over.
fn begin_again<G: Game + Drop>(alloc: Global, game: Parsed, room: u32) -> Result<G, NoGame>
    requires legal { IsGame game.game_type game.moves }
    requires few { length game.moves ≤ 5000 }
    requires little { room ≤ 64 }
    ensures game { IfOk result (λ g. Resumes (G.history g) (if_open game)) }
    ensures under_way { IfOk result (λ g. IsUnderWay (G.history g)) }
    ensures room { IfOk result (λ g. room ≤ (G.history g).spare) }
    ensures none { IfErr result (λ e. Lacks e (if_open game)) }
{
    let under_way: G = played(alloc, game.game_type, game.moves.items(), room)?;
    if is_over(&under_way) {
        return Err(bad(alloc, b"game over"));
    }
    Ok(under_way)
}

/// The game that the text is, in progress and with room for this many more plies, if it is not
/// over.
fn game_of<G: Game + Drop>(alloc: Global, text: &[u8], room: u32) -> Result<G, NoGame>
    requires short { length text.now ≤ greatest_line }
    requires few { room ≤ 64 }
    ensures game { IfOk result (λ g. Resumes (G.history g) (open_game (game_of text.now))) }
    ensures under_way { IfOk result (λ g. IsUnderWay (G.history g)) }
    ensures room { IfOk result (λ g. room ≤ (G.history g).spare) }
    ensures none { IfErr result (λ e. Lacks e (open_game (game_of text.now))) }
{
    match read_game::<G>(alloc, text) {
        Ok(game) => begin_again(alloc, game, room),
        Err(fault) => Err(bad_game(alloc, fault)),
    }
}

/// Reads the first line, which must be a game that is not over. The game has reached the end of its
/// moves and has room for this many more plies. What follows the line is not checked.
pub fn first_game<S: Source, G: Game + Drop>(
    alloc: Global,
    reader: &mut LineReader,
    input: &mut S,
    room: u32,
) -> Result<G, NoGame>
    requires { room ≤ 64 }
    ensures given { (bytes : List ℕ)
        × WereTaken bytes reader.old reader.new (S.rest input.old) (S.rest input.new)
        × MatchResult result
        (λ g. GivesGame (G.history g) bytes reader.old reader.new (S.rest input.new))
        (λ e. GivesNone e bytes reader.old reader.new (S.rest input.new)) }
    ensures under_way { IfOk result (λ g. IsUnderWay (G.history g)) }
    ensures room { IfOk result (λ g. room ≤ (G.history g).spare) }
    ensures cause { HasCause (result ≡ Err NoGame.ReadFault) (S.read_faults input.old)
        (S.read_faults input.new) }
{
    match reader.next_line(input) {
        LineAnswer::Line => game_of(alloc, reader.line(), room),
        LineAnswer::TooLong => Err(bad(alloc, b"line too long")),
        LineAnswer::End => Err(bad(alloc, b"no line")),
        LineAnswer::Failed => Err(NoGame::ReadFault),
        LineAnswer::Full => Err(NoGame::InputFull),
    }
}

/// Reads on to the end of the input. No further line may come before it, not even an empty one.
fn no_more_lines<S: Source>(
    alloc: Global,
    reader: &mut LineReader,
    input: &mut S,
) -> Result<(), NoGame>
    ensures given { (bytes : List ℕ)
        × WereTaken bytes reader.old reader.new (S.rest input.old) (S.rest input.new)
        × MatchResult result
        (λ _. Ends reader.old bytes reader.new (S.rest input.new))
        (λ e. GoesOn e bytes reader.old reader.new (S.rest input.new)) }
    ensures cause { HasCause (result ≡ Err NoGame.ReadFault) (S.read_faults input.old)
        (S.read_faults input.new) }
{
    match reader.next_line(input) {
        LineAnswer::End => Ok(()),
        LineAnswer::Line | LineAnswer::TooLong => Err(bad(alloc, b"more lines")),
        LineAnswer::Failed => Err(NoGame::ReadFault),
        LineAnswer::Full => Err(NoGame::InputFull),
    }
}

/// Reads the input to its end. It must be one line, a game that is not over. The game has reached
/// the end of its moves, at most 5,000, and has room for this many more plies. The first line that
/// shows that the input is not such a game is the last one read.
pub fn read_one_game<S: Source, G: Game + Drop>(
    alloc: Global,
    input: &mut S,
    room: u32,
) -> Result<G, NoGame>
    requires { room ≤ 64 }
    ensures game { IfOk result (λ g. WhereTold (S.rest input.old)
        (λ bytes. (game : AnyGame) × IsAsked bytes (S.rest input.new) game
        × IsReplayOf (G.history g) game)) }
    ensures under_way { IfOk result (λ g. IsUnderWay (G.history g)) }
    ensures room { IfOk result (λ g. room ≤ (G.history g).spare) }
    ensures none { IfErr result (λ e. WhereTold (S.rest input.old)
        (λ bytes. IsUnanswered about_game e bytes (S.rest input.new))) }
    ensures cause { HasCause (result ≡ Err NoGame.ReadFault) (S.read_faults input.old)
        (S.read_faults input.new) }
{
    let Ok(mut reader) = LineReader::new(alloc) else {
        return Err(NoGame::Memory);
    };
    let game = match first_game(alloc, &mut reader, input, room) {
        Ok(game) => game,
        Err(none) => return Err(none),
    };
    match no_more_lines(alloc, &mut reader, input) {
        Ok(()) => Ok(game),
        Err(none) => Err(none),
    }
}
