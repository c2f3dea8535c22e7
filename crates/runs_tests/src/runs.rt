//! Runs over sources, sinks and programs in memory.

mod commands;
mod counted;
mod fronts;
mod late;
mod matches_from;
mod programs;
mod replayed;

use hive_cli::{Status, run};
use io_edge::{Clock, MemSpawner, StepClock};
use memory_sides::{MemSetting, Played, owned_words, spawner_of};
use std::alloc::{AllocError, Global};
use std::process::Abort;
use std::thread::Threads;
use tournament_edge::StepClocks;

/// Runs these words over the sides with this setting, by this clock and over these programs.
fn play<R: Threads + Sync, C: Clock>(
    rt: &R,
    alloc: Global,
    words: &[&str],
    setting: MemSetting<'_>,
    clock: &mut C,
    mut spawner: MemSpawner,
) -> Result<Played<Status>, AllocError> {
    let words = owned_words(alloc, words)?;
    let mut input = setting.source(alloc)?;
    let mut output = setting.sink(alloc)?;
    let outcome = run(
        rt,
        alloc,
        words.as_slice(),
        &mut input,
        &mut output,
        clock,
        &mut spawner,
        &StepClocks { start: 0, step: 1 },
    );
    Ok(Played {
        status: outcome.status,
        output,
        spawner,
    })
}

/// Runs in memory, with no program and a clock that advances by a millisecond at each reading. It
/// compares the status and all that was written.
fn expect_run<R: Threads + Sync + Abort>(
    rt: &R,
    alloc: Global,
    words: &[&str],
    setting: MemSetting<'_>,
    status: Status,
    written: &str,
) -> Result<(), AllocError> {
    let mut clock = StepClock::new(0, 1);
    let spawner = spawner_of(alloc, Vec::new(alloc), 0)?;
    let played = play(rt, alloc, words, setting, &mut clock, spawner)?;
    assert_eq!(rt; played.status, status, "{setting}");
    assert_eq!(rt; played.output.bytes(), written.as_bytes(), "{setting}");
    Ok(())
}
