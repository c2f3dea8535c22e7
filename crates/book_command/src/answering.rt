//! The run of a book.

ghost use Rattle.std.specs.Prelude.{◌≡◌, [], false, Err, IfOk, IfErr};
ghost use Rattle.io_edge.specs.Outside.{HasCause};
ghost use Rattle.hive_model.specs.Histories.{position};
ghost use Rattle.hive_model.specs.Legal.{is_over};
ghost use Rattle.opening_book.specs.Book.{IsTally};
ghost use Rattle.command_runs.specs.Input.{WhereTold};
ghost use Rattle.command_runs.specs.Answered.{IsUnanswered, WritesAs};
ghost use Rattle.command_runs.specs.Runs.{RunsAs, side_of};
ghost use Rattle.book_command.specs.Runs.{BookRun, IsAnswer, about_book};

use crate::book_line::book_line;
use crate::reading::count_games;
use command_runs::{NoGame, Status, first_game, tell_none};
use hive_model::{Game, MoveStack, ReplyText};
use io_edge::{Sink, Source, write_all};
use line_feed::LineReader;
use opening_book::MoveTally;
use std::alloc::{AllocError, Global};

/// The counts for the game's position over no games.
fn tally_of<G: Game>(alloc: Global, game: &mut G) -> Result<MoveTally, AllocError>
    requires { is_over (position (G.history game.old)) ≡ false }
    ensures tally { IfOk result (λ t. IsTally (position (G.history game.old)) [] t) }
    ensures game { G.history game.new ≡ G.history game.old }
{
    let mut stack = MoveStack::new(alloc, 1)?;
    MoveTally::of(alloc, game, &mut stack)
}

/// The line of the book for which the input asks.
fn answer<S: Source, G: Game + Drop>(alloc: Global, input: &mut S) -> Result<ReplyText, NoGame>
    ensures line { IfOk result (λ line. WhereTold (S.rest input.old)
        (λ bytes. IsAnswer bytes (S.rest input.new) line)) }
    ensures none { IfErr result (λ e. WhereTold (S.rest input.old)
        (λ bytes. IsUnanswered about_book e bytes (S.rest input.new))) }
    ensures cause { HasCause (result ≡ Err NoGame.ReadFault)
        (S.read_faults input.old) (S.read_faults input.new) }
{
    let Ok(mut reader) = LineReader::new(alloc) else {
        return Err(NoGame::Memory);
    };
    let mut game = match first_game::<S, G>(alloc, &mut reader, input, 0) {
        Ok(game) => game,
        Err(none) => return Err(none),
    };
    let Ok(mut tally) = tally_of(alloc, &mut game) else {
        return Err(NoGame::Memory);
    };
    match count_games::<S, G>(alloc, &mut reader, input, &mut tally) {
        Ok(()) => match book_line(alloc, &game, &tally) {
            Ok(line) => Ok(line),
            Err(_) => Err(NoGame::Memory),
        },
        Err(none) => Err(none),
    }
}

/// Writes the line of a book.
fn tell<K: Sink>(line: &[u8], output: &mut K) -> Status
    ensures told { WritesAs line.now Status.Done result
        (K.written output.old) (K.written output.new) }
    ensures cause { HasCause (result ≡ Status.WriteFault)
        (K.write_faults output.old) (K.write_faults output.new) }
{
    if write_all(output, line) {
        Status::Done
    } else {
        Status::WriteFault
    }
}

/// Reads a position and then played games, and names the legal move that was made most often there.
///
/// The first line of the input is a game string of a game that is not over; the position is the one
/// at its end. Each further line is a game string of a game, finished or not. One game is kept at a
/// time, so the memory does not grow with the games. A ply of a game counts if some turning,
/// mirroring and shifting maps the position before it to the one asked about. Its move is mapped in
/// the same way. Equal positions have the same type, side to move, resting piece and turn, and all
/// turns from 5 on count as one.
///
/// At the end of the input it writes `book `, the move as written on the board of the position, a
/// space and how often it was made. Of several moves made equally often, it names the first in the
/// order of the moves. If none was made, it writes `book none`. The status is then `Done`. If the
/// first line is missing, too long or no game that is not over, one line that begins with `bad`
/// says why. If a further line is no game or too long, the line is `bad line ` and its number in
/// the input. No line after it is read. The status is then `BadInput`. If a read fails, the input
/// is full or memory runs out, the run ends with nothing written.
pub fn book<S: Source, K: Sink, G: Game + Drop>(
    alloc: Global,
    input: &mut S,
    output: &mut K,
) -> Status
    ensures { RunsAs BookRun result
        (side_of S.rest S.read_faults input.old) (side_of K.written K.write_faults output.old)
        (side_of S.rest S.read_faults input.new) (side_of K.written K.write_faults output.new) }
{
    match answer::<S, G>(alloc, input) {
        Ok(line) => tell(line.items(), output),
        Err(none) => tell_none(none, output),
    }
}
