//! The lines of the input, taken one at a time to its end.
ghost use Rattle.std.specs.Prelude.{
  ◌≡◌,
  ◌≤◌,
  ◌<◌,
  ◌^◌,
  ℕ,
  List,
  length,
  Ok,
  Err,
  IfOk,
  IfErr,
  MatchResult,
  OnOk,
};
ghost use Rattle.io_edge.specs.Outside.{HasCause};
ghost use Rattle.command_runs.specs.Answered.{IsUnanswered};
ghost use Rattle.command_runs.specs.Asking.{Says, WereTaken};
ghost use Rattle.command_runs.specs.Input.{WhereTold};
ghost use Rattle.command_runs.specs.OneGame.{bad_line};
ghost use Rattle.tournament_command.specs.Formats.{IsFormat};
ghost use Rattle.tournament_command.specs.Reads.{IsTold, about_tournament, refusal};
ghost use Rattle.tournament_command.specs.Taking.{
  AreEngines,
  IsIntake,
  SaysWhy,
  TakesNext,
  TakesNone,
};

use crate::format::Format;
use crate::intake::Intake;
use crate::refused::{LineFault, Refused};
use command_runs::{NoGame, line_for, numbered};
use cup::Program;
use hive_model::{Game, ReplyText};
use io_edge::Source;
use line_feed::{LineAnswer, LineReader};
use std::alloc::{AllocError, Global};

/// Why a line is refused.
fn refusal(alloc: Global, fault: LineFault) -> Result<ReplyText, AllocError>
    ensures { IfOk result (λ text. text ≡ refusal fault) }
{
    match fault {
        LineFault::Bad { number } => numbered(alloc, b"line ", number),
        LineFault::Other { number, topic } => {
            let mut why = numbered(alloc, b"line ", number)?;
            why.push_all(b" other ")?;
            why.push_all(topic.word())?;
            Ok(why)
        }
    }
}

/// The line that refuses a line, its LF included.
fn refusal_line(alloc: Global, fault: LineFault) -> Result<ReplyText, AllocError>
    ensures { IfOk result (λ text. text ≡ bad_line (refusal fault)) }
{
    let why = refusal(alloc, fault)?;
    line_for(alloc, b"bad ", why.items())
}

/// Why the input is not what it is to be, where a line is not taken.
fn none_for(alloc: Global, why: Refused) -> NoGame
    ensures { SaysWhy result why }
{
    match why {
        Refused::Line(fault) => match refusal_line(alloc, fault) {
            Ok(text) => NoGame::Bad(text),
            Err(_) => NoGame::Memory,
        },
        Refused::Memory => NoGame::Memory,
    }
}

/// Reads and takes the next line; it says whether there was one.
fn take_next<S: Source, G: Game + Drop>(
    alloc: Global,
    programs: &[Program],
    format: Format,
    reader: &mut LineReader,
    input: &mut S,
    intake: &mut Intake,
) -> Result<bool, NoGame>
    requires room { intake.old.lines < 2 ^ 63 }
    requires engines { AreEngines (length programs.now) }
    requires format { IsFormat format }
    requires valid { IsIntake (length programs.now) format intake.old }
    ensures given { (bytes : List ℕ)
        × WereTaken bytes reader.old reader.new (S.rest input.old) (S.rest input.new)
        × MatchResult result
        (λ more. TakesNext programs.now format intake.old intake.new more bytes
        reader.old reader.new (S.rest input.new))
        (λ none. TakesNone programs.now format intake.old none bytes
        reader.old reader.new (S.rest input.new)) }
    ensures valid { OnOk result (IsIntake (length programs.now) format intake.new) }
    ensures cause { HasCause (result ≡ Err NoGame.ReadFault) (S.read_faults input.old)
        (S.read_faults input.new) }
{
    match reader.next_line(input) {
        LineAnswer::Line => match intake.take::<G>(alloc, programs, format, reader.line()) {
            Ok(()) => Ok(true),
            Err(why) => Err(none_for(alloc, why)),
        },
        LineAnswer::TooLong => match intake.take_long(programs, format) {
            Ok(()) => Ok(true),
            Err(why) => Err(none_for(alloc, why)),
        },
        LineAnswer::End => Ok(false),
        LineAnswer::Failed => Err(NoGame::ReadFault),
        LineAnswer::Full => Err(NoGame::InputFull),
    }
}

/// Reads the lines of the input to its end, and takes each. The first that is refused ends the
/// reading.
pub(crate) fn read_intake<S: Source, G: Game + Drop>(
    alloc: Global,
    programs: &[Program],
    format: Format,
    input: &mut S,
) -> Result<Intake, NoGame>
    requires engines { AreEngines (length programs.now) }
    requires format { IsFormat format }
    ensures told { IfOk result (λ intake. WhereTold (S.rest input.old)
        (λ bytes. IsTold programs.now format bytes (S.rest input.new) intake)) }
    ensures valid { IfOk result (λ intake. IsIntake (length programs.now) format intake) }
    ensures none { IfErr result (λ none. WhereTold (S.rest input.old)
        (λ bytes. IsUnanswered (about_tournament programs.now format) none bytes
        (S.rest input.new))) }
    ensures cause { HasCause (result ≡ Err NoGame.ReadFault) (S.read_faults input.old)
        (S.read_faults input.new) }
{
    let Ok(mut reader) = LineReader::new(alloc) else {
        return Err(NoGame::Memory);
    };
    let mut intake = Intake::new(alloc);
    'lines: loop {
        match take_next::<S, G>(alloc, programs, format, &mut reader, input, &mut intake) {
            Ok(more) => {
                if !more {
                    return Ok(intake);
                }
            }
            Err(none) => return Err(none),
        }
    }
}
