//! The games of a cup, played at once.

ghost use Rattle.std.specs.Prelude.{◌≡◌, ◌≢◌, ◌<◌, ◌≤◌, length, map, None, OnOk, OnErr};
ghost use Rattle.std.specs.List.{All, AllZip, Any};
ghost use Rattle.cup.specs.Played.{IsPlayed, IsPlayedOrNot, IsSettled, HasVerdict, pairing};

use crate::gate::CupGate;
use crate::job::CupJob;
use hive_model::Game;
use io_edge::Link;
use std::alloc::{AllocError, Global};
use std::thread::{Threads, for_each_mut};

/// The most games of a cup: those of 8 engines.
const MOST_GAMES: usize = 56;

/// Plays the game at this place. If its match ran out of memory, it has no referee.
fn run_one<L: Link, G: Game + Drop, T: CupGate>(
    alloc: Global,
    gate: &T,
    place: u32,
    job: &mut CupJob<L, G>,
)
    ensures { IsSettled job.old job.new }
{
    gate.before_game(place);
    let _ = job.play(alloc);
}

/// Plays all games, each in a thread of its own if one can be made.
fn run_games<R: Threads + Sync, L: Link + Send, G: Game + Send + Drop, T: CupGate + Sync>(
    rt: &R,
    alloc: Global,
    jobs: &mut [CupJob<L, G>],
    gate: &T,
)
    requires few { length jobs.old ≤ 56 }
    ensures { AllZip IsSettled jobs.old jobs.new }
{
    for_each_mut(
        rt,
        jobs,
        MOST_GAMES,
        &|place: usize, job: &mut CupJob<L, G>|
            requires { place < 56 }
            ensures { IsSettled job.entry.now job.exit.now }
        { run_one(alloc, gate, place as u32, job) },
    );
}

/// An error if the game has no referee.
fn played<L: Link, G: Game + Drop>(job: &CupJob<L, G>) -> Result<(), AllocError>
    ensures ok { OnOk result (job.now.referee ≢ None) }
    ensures err { OnErr result (job.now.referee ≡ None) }
{
    match job.referee() {
        Some(_) => Ok(()),
        None => Err(AllocError),
    }
}

/// An error if one of the games has no referee.
fn all_played<L: Link, G: Game + Drop>(jobs: &[CupJob<L, G>]) -> Result<(), AllocError>
    ensures ok { OnOk result (All (λ j. j.referee ≢ None) jobs.now) }
    ensures err { OnErr result (Any (λ j. j.referee ≡ None) jobs.now) }
{
    for place in 0..jobs.len() {
        played(&jobs[place])?;
    }
    Ok(())
}

/// Plays the games of a cup, each over links of its own, at once if threads can be had. Before each
/// game the gate is called with the game's place, counted from 0.
///
/// Whatever is answered, each job stays at its place with its two engines and its setup. Under any
/// schedule its referee is that of a match over its own links, whatever was there before, or it has
/// none. The only error is running out of memory. A game that did so has no referee, counts as not
/// played, and its links are as the calls so far left them.
pub fn run_cup<R: Threads + Sync, L: Link + Send, G: Game + Send + Drop, T: CupGate + Sync>(
    rt: &R,
    alloc: Global,
    jobs: &mut [CupJob<L, G>],
    gate: &T,
) -> Result<(), AllocError>
    requires few { length jobs.old ≤ 56 }
    ensures engines { map pairing jobs.new ≡ map pairing jobs.old }
    ensures setups { map (λ j. j.setup) jobs.new ≡ map (λ j. j.setup) jobs.old }
    ensures settled { AllZip IsPlayedOrNot jobs.old jobs.new }
    ensures judged { OnOk result (All HasVerdict jobs.new) }
    ensures played { OnOk result (AllZip IsPlayed jobs.old jobs.new) }
    ensures err { OnErr result (Any (λ j. j.referee ≡ None) jobs.new) }
{
    run_games(rt, alloc, jobs, gate);
    all_played(jobs)
}
