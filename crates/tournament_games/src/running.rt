//! The games of a wave, played at once.
ghost use Rattle.std.specs.Prelude.{◌≡◌};
ghost use Rattle.std.specs.List.{AllZip};
ghost use Rattle.tournament_games.specs.Games.{IsSettled};

use crate::job::Job;
use crate::tournament::Tournament;
use hive_model::Game;
use io_edge::Link;
use std::alloc::Global;
use std::thread::{Threads, for_each_mut};
use tournament_edge::Clocks;

/// The most games that are played at once.
const MOST_AT_ONCE: usize = 64;

/// Plays one game. If its match ran out of memory, the game has no outcome.
fn run_one<L: Link, G: Game + Drop, M: Clocks>(
    alloc: Global,
    tournament: &Tournament,
    clocks: &M,
    job: &mut Job<L>,
)
    ensures { IsSettled tournament.now job.old job.new }
{
    let _ = job.play::<G, M>(alloc, tournament, clocks);
}

/// Plays all games, each in a thread of its own if one can be made.
fn run_each<R: Threads + Sync, L: Link + Send, G: Game + Send + Drop, M: Clocks + Sync>(
    rt: &R,
    alloc: Global,
    tournament: &Tournament,
    clocks: &M,
    jobs: &mut [Job<L>],
)
    ensures { AllZip (IsSettled tournament.now) jobs.old jobs.new }
{
    for_each_mut(
        rt,
        jobs,
        MOST_AT_ONCE,
        &|_place: usize, job: &mut Job<L>|
            ensures { IsSettled tournament.entry.now job.entry.now job.exit.now }
        { run_one::<L, G, M>(alloc, tournament, clocks, job) },
    );
}

/// Plays all games of a wave, at once if threads can be had.
pub(crate) fn run_wave<R: Threads + Sync, L: Link + Send, G: Game + Send + Drop, M: Clocks + Sync>(
    rt: &R,
    alloc: Global,
    tournament: &Tournament,
    clocks: &M,
    jobs: &mut Vec<Job<L>>,
)
    ensures { AllZip (IsSettled tournament.now) jobs.old.items jobs.new.items }
{
    run_each::<R, L, G, M>(rt, alloc, tournament, clocks, jobs.as_mut_slice());
}
