//! The command: the input is read, and the tournament that it tells is played.
ghost use Rattle.std.specs.Prelude.{◌≡◌, ◌≤◌, length, IfOk};
ghost use Rattle.std.specs.List.{All};
ghost use Rattle.io_edge.specs.Outside.{HasCause};
ghost use Rattle.command_runs.specs.World.{Times, sides, world};
ghost use Rattle.match_command.specs.Match.{NoneIsOpen};
ghost use Rattle.tournament_record.specs.Openings.{IsOpening};
ghost use Rattle.tournament_command.specs.Formats.{IsFormat, openings_of, terms_of};
ghost use Rattle.tournament_command.specs.Reads.{ReadTournamentRun};

use crate::format::{Format, plan_of};
use crate::reading::read_intake;
use command_runs::{Status, tell_none};
use cup::Program;
use hive_model::{Game, MoveList};
use io_edge::{Sink, Source, Spawner};
use std::alloc::{AllocError, Global};
use std::thread::Threads;
use tournament_edge::{Clocks, Progress};
use tournament_games::{Tournament, play_tournament};

/// These openings; where none is given, one of no moves.
fn openings_of(alloc: Global, mut openings: Vec<MoveList>) -> Result<Vec<MoveList>, AllocError>
    ensures { IfOk result (λ all. all.items ≡ openings_of openings.items) }
{
    if !openings.is_empty() {
        return Ok(openings);
    }
    openings.push(MoveList::new(alloc))?;
    Ok(openings)
}

/// A tournament of these programs from these openings.
fn tournament_of(
    alloc: Global,
    programs: Vec<Program>,
    format: Format,
    openings: Vec<MoveList>,
) -> Result<Tournament, AllocError>
    requires format { IsFormat format }
    requires some { 2 ≤ length programs.items }
    requires few { length programs.items ≤ 64 }
    requires each { All (IsOpening format.setup.game_type) openings.items }
    requires most { length openings.items ≤ 100000 }
    ensures { IfOk result (λ tournament.
        tournament ≡ terms_of programs.items format openings.items) }
{
    let plan = plan_of(programs.len() as u32, format, openings.as_slice());
    let all = openings_of(alloc, openings)?;
    Ok(Tournament::new(programs, plan, format.setup, all, format.at_once))
}

/// Reads the input of a tournament to its end, and plays the tournament of these programs, as
/// `play_tournament` does.
///
/// Each line of the input is the game string of an opening: a game of the setup's type that is not
/// over. There are at most 100,000. If there is none, the games begin with no move.
///
/// If earlier games are handed in, an empty line ends the openings. The lines after it are what
/// earlier runs of this tournament wrote: its head, and two lines for each game. A whole game, its
/// line and its verdict, counts as played, with the outcome of its verdict. The tournament goes on
/// after the last one. The head may occur once more before each game. The last line may be cut, or
/// be another one: its game is played again. Lines after all games, such as the standings, are not
/// used.
///
/// The input is read to its end before a program is started. If a line is something else, the run
/// is `BadInput` and the text is `bad line N`, where N is its number, counted from 1. A line that
/// has to describe a game and does not is refused only if another line follows it. No line after
/// that one is read. The head of another tournament is refused as `bad line N other WORD`, with the
/// first word that differs.
///
/// If a read fails (`ReadFault`), the input is full (`InputFull`) or memory runs out before the
/// first program (`Memory`), nothing is written. In each of these cases no program is started, and
/// also none if the line could not be written (`WriteFault`). Otherwise the run ends like that of
/// `play_tournament`.
///
/// There are 2 to 64 programs. A format has 1 to 10,000 rounds, and 1 to 64 games at once.
pub fn play_read_tournament<
    R: Threads + Sync,
    S: Source,
    P: Spawner,
    K: Sink,
    G: Game + Send + Drop,
    M: Clocks + Progress + Sync,
>(
    rt: &R,
    alloc: Global,
    programs: Vec<Program>,
    format: Format,
    input: &mut S,
    output: &mut K,
    spawner: &mut P,
    clocks: &M,
) -> Status
    requires format { IsFormat format }
    requires some { 2 ≤ length programs.items }
    requires few { length programs.items ≤ 64 }
    ensures run { (times : Times) → ReadTournamentRun programs.items format result
        (world (sides (S.rest input.old) (K.written output.old)) times (P.engines spawner.old))
        (world (sides (S.rest input.new) (K.written output.new)) times (P.engines spawner.new)) }
    ensures closed { NoneIsOpen (P.engines spawner.old) (P.engines spawner.new) }
    ensures writes { HasCause (result ≡ Status.WriteFault) (K.write_faults output.old)
        (K.write_faults output.new) }
    ensures reads { HasCause (result ≡ Status.ReadFault) (S.read_faults input.old)
        (S.read_faults input.new) }
{
    match read_intake::<S, G>(alloc, programs.as_slice(), format, input) {
        Ok(intake) => {
            let (openings, ends) = intake.parts();
            let Ok(tournament) = tournament_of(alloc, programs, format, openings) else {
                return Status::Memory;
            };
            play_tournament::<R, P, K, G, M>(
                rt,
                alloc,
                &tournament,
                ends.as_slice(),
                output,
                spawner,
                clocks,
            )
        }
        Err(none) => tell_none(none, output),
    }
}
