//! The command: starts all programs, plays the games, and writes the text that reports them.
ghost use Rattle.std.specs.Prelude.{◌≡◌, ◌<◌, ◌≤◌, ◌++◌, List, length, map, IfOk, OnOk, IsErrOf};
ghost use Rattle.std.specs.List.{All, AllZip, flat_map, zip};
ghost use Rattle.io_edge.specs.Outside.{HasCause, Told};
ghost use Rattle.command_runs.specs.World.{Times, sides, world};
ghost use Rattle.match_core.specs.Keeps.{IsSetup};
ghost use Rattle.match_core.specs.MatchState.{MatchState};
ghost use Rattle.match_command.specs.Match.{NoneIsOpen};
ghost use Rattle.match_command.specs.Ends.{EndsRun};
ghost use Rattle.cup.specs.Cup.{pairings};
ghost use Rattle.cup.specs.declared.standing.Standing.{Standing as AnyPlace};
ghost use Rattle.cup.specs.Played.{AreStandingsOf, IsDepth, IsPlayed, pairing};
ghost use Rattle.cup_command.specs.Cup.{
  AreCupStandings,
  BreaksOff,
  CupRun,
  EndsEarly,
  PlayedGames,
};
ghost use Rattle.cup_command.specs.Links.{IsReady, jobs_text};
ghost use Rattle.cup_command.specs.Texts.{cup_text, standing_text};

use crate::closing::close_links;
use crate::links::start_links;
use crate::texts::tell_cup;
use command_runs::{Status, end_with};
use cup::{CupGate, CupJob, Pairing, Program, pairings, run_cup};
use hive_model::{Game, ReplyText};
use io_edge::{Link, Sink, Spawner, StartFault};
use match_core::Setup;
use std::alloc::{AllocError, Global};
use std::thread::Threads;

/// Plays the games of a cup whose programs were started. It answers the text that reports the cup.
fn run_and_tell<R: Threads + Sync, L: Link + Send, G: Game + Send + Drop, T: CupGate + Sync>(
    rt: &R,
    alloc: Global,
    programs: &[Program],
    setup: Setup,
    games: &[Pairing],
    jobs: &mut [CupJob<L, G>],
    gate: &T,
) -> Result<ReplyText, AllocError>
    requires some { 2 ≤ length programs.now }
    requires few { length programs.now ≤ 8 }
    requires games { games.now ≡ pairings (length programs.now) }
    requires jobs { map pairing jobs.old ≡ games.now }
    requires ready { All (IsReady setup) jobs.old }
    ensures long { length jobs.new ≡ length jobs.old }
    ensures played { OnOk result (AllZip IsPlayed jobs.old jobs.new) }
    ensures told { IfOk result (λ text. (places : List AnyPlace)
        × AreStandingsOf (length programs.now) jobs.new places
        × (text ≡ jobs_text setup (zip games.now jobs.new)
        ++ flat_map (standing_text programs.now) places)) }
{
    run_cup(rt, alloc, jobs, gate)?;
    tell_cup(alloc, programs, setup, games, jobs)
}

/// Starts all programs, plays their games and closes them. It answers the text that reports the
/// cup. If memory runs out anywhere, the answer is `Memory`.
fn play<R: Threads + Sync, P: Spawner, G: Game + Send + Drop, T: CupGate + Sync>(
    rt: &R,
    alloc: Global,
    programs: &[Program],
    setup: Setup,
    spawner: &mut P,
    gate: &T,
) -> Result<ReplyText, StartFault>
    requires some { 2 ≤ length programs.now }
    requires few { length programs.now ≤ 8 }
    requires setup { IsSetup setup }
    requires depth { IsDepth setup.level }
    ensures told { IfOk result (λ text. (ends : List MatchState) × (places : List AnyPlace)
        × PlayedGames programs.now setup ends
        (P.engines spawner.old) (P.engines spawner.new)
        × AreCupStandings (length programs.now) ends places
        × (text ≡ cup_text setup programs.now ends places)) }
    ensures broken { IsErrOf result StartFault.Failed → BreaksOff programs.now
        (P.engines spawner.old) (P.engines spawner.new) }
    ensures early { IsErrOf result StartFault.Memory → EndsEarly programs.now
        (P.engines spawner.old) (P.engines spawner.new) }
    ensures closed { NoneIsOpen (P.engines spawner.old) (P.engines spawner.new) }
    ensures cause { HasCause (IsErrOf result StartFault.Failed)
        (P.engines spawner.old).start_faults (P.engines spawner.new).start_faults }
{
    let Ok(games) = pairings(alloc, programs.len() as u32) else {
        return Err(StartFault::Memory);
    };
    let games = games.as_slice();
    match start_links::<P, G>(alloc, programs, games, setup, spawner) {
        Ok(mut jobs) => {
            let text = run_and_tell(rt, alloc, programs, setup, games, &mut jobs, gate);
            close_links(jobs, spawner);
            match text {
                Ok(text) => Ok(text),
                Err(_) => Err(StartFault::Memory),
            }
        }
        Err(fault) => Err(fault),
    }
}

/// Plays a cup of programs and reports it.
///
/// The engines are numbered from 1, in the order of the programs. Each plays white once against
/// each other one, in the order of white's number and then of black's. First all programs are
/// started, game by game and white's first: for each game both of its programs, each by its words.
/// Then the games are played, at once if threads can be had; before each one the gate is called.
/// Then all engines are closed, in the order of their starts. Only then the text is written: two
/// lines for each game, its game string and its verdict, and one for each engine of the standings.
/// Each engine that was started is closed before the call returns, whatever happens.
///
/// There are 2 to 8 programs. A setup has a depth from 1 to 64, and a limit of 1 to 1,000 plies.
///
/// `Done` says that the whole text was written. `WriteFault` says that a write failed: only an
/// initial part of the text was written, and not all. `SpawnFault` says that a program did not
/// start, and `Memory` that memory ran out, before or after the starts. Then nothing was written,
/// and the programs that were started are the first ones. No other status is answered.
pub fn play_cup<R: Threads + Sync, P: Spawner, K: Sink, G: Game + Send + Drop, T: CupGate + Sync>(
    rt: &R,
    alloc: Global,
    programs: &[Program],
    setup: Setup,
    output: &mut K,
    spawner: &mut P,
    gate: &T,
) -> Status
    requires some { 2 ≤ length programs.now }
    requires few { length programs.now ≤ 8 }
    requires setup { IsSetup setup }
    requires depth { IsDepth setup.level }
    ensures run { (rest : Told) (times : Times) → CupRun programs.now setup result
        (world (sides rest (K.written output.old)) times (P.engines spawner.old))
        (world (sides rest (K.written output.new)) times (P.engines spawner.new)) }
    ensures ends { EndsRun result (K.write_faults output.old) (K.write_faults output.new)
        (P.engines spawner.old) (P.engines spawner.new) }
{
    match play::<R, P, G, T>(rt, alloc, programs, setup, spawner, gate) {
        Ok(text) => end_with(text.items(), Status::Done, output),
        Err(StartFault::Failed) => Status::SpawnFault,
        Err(StartFault::Memory) => Status::Memory,
    }
}
