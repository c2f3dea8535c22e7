//! A wave of games: their programs are started, the games are played, and the programs are closed.
ghost use Rattle.std.specs.Prelude.{◌≡◌, ◌≤◌, ◌+◌, ◌^◌, length, IfOk, OnErr, OnOk};
ghost use Rattle.tournament_core.specs.Schedules.{schedule};
ghost use Rattle.tournament_games.specs.Links.{Shuts};
ghost use Rattle.tournament_games.specs.Waves.{IsWave};

use crate::closing::close_all;
use crate::running::run_wave;
use crate::starting::start_wave;
use crate::tournament::Tournament;
use crate::wave_text::tell_wave;
use hive_model::{Game, ReplyText};
use io_edge::Spawner;
use std::alloc::{AllocError, Global};
use std::thread::Threads;
use tournament_core::Tally;
use tournament_edge::Clocks;

/// Plays `count` games after `first` earlier ones, at once if threads can be had, and notes them.
/// Their programs are started first, one after the other. They are closed after the games in the
/// same order, even if memory runs out. The text has the lines of the games, in their order.
pub(crate) fn play_wave<R: Threads + Sync, P: Spawner, G: Game + Send + Drop, M: Clocks + Sync>(
    rt: &R,
    alloc: Global,
    tournament: &Tournament,
    clocks: &M,
    first: u64,
    count: u32,
    tally: &mut Tally,
    spawner: &mut P,
) -> Result<ReplyText, AllocError>
    requires within { first + count ≤ length (schedule tournament.now.plan) }
    requires few { first + count ≤ 2 ^ 42 }
    requires engines { tally.old.engines ≡ tournament.now.plan.engines }
    requires noted { tally.old.games ≡ first }
    ensures played { IfOk result (λ text. IsWave tournament.now first count text
        tally.old tally.new (P.engines spawner.old) (P.engines spawner.new)) }
    ensures engines { tally.new.engines ≡ tally.old.engines }
    ensures count { OnOk result (tally.new.games ≡ tally.old.games + count) }
    ensures shut { OnErr result (Shuts 0 (P.engines spawner.old) (P.engines spawner.new)) }
{
    let mut jobs = start_wave(alloc, tournament, first, count, spawner)?;
    run_wave::<R, P::Engine, G, M>(rt, alloc, tournament, clocks, &mut jobs);
    let text = tell_wave(alloc, jobs.as_slice(), tally);
    close_all(jobs, spawner);
    text
}
