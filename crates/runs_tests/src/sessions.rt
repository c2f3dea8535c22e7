//! Sessions over sources and sinks in memory.

mod best;
mod faults;
mod kept;
mod lists;
mod refused;
mod repeated;
mod turns;
mod worked;

use hive_cli::{Outcome, Status, run};
use io_edge::{MemSink, Sink, Source, StepClock};
use memory_sides::{CUTS, MemSetting, owned_words, spawner_of};
use std::alloc::{AllocError, Global};
use std::process::Abort;
use std::sync::atomic::{AtomicU64, Ordering};
use std::test::Fail;
use std::thread::Threads;
use tournament_edge::StepClocks;
use turns::{CountedSink, TurnSource};

const GREETING: &str = "id HiveReferee 1.0\nMosquito;Ladybug;Pillbug\nok\n";

/// Runs these words over these two sides. The clock advances by a millisecond at each reading.
fn outcome_of<R: Threads + Sync, S: Source, K: Sink>(
    rt: &R,
    alloc: Global,
    words: &[&str],
    input: &mut S,
    output: &mut K,
) -> Result<Outcome, AllocError> {
    let words = owned_words(alloc, words)?;
    let mut clock = StepClock::new(0, 1);
    let mut spawner = spawner_of(alloc, Vec::new(alloc), 0)?;
    Ok(run(
        rt,
        alloc,
        words.as_slice(),
        input,
        output,
        &mut clock,
        &mut spawner,
        &StepClocks { start: 0, step: 1 },
    ))
}

/// Runs in memory: how the run ended, and what it wrote.
fn run_in_memory<R: Threads + Sync>(
    rt: &R,
    alloc: Global,
    words: &[&str],
    setting: MemSetting<'_>,
) -> Result<(Status, MemSink), AllocError> {
    let mut source = setting.source(alloc)?;
    let mut sink = setting.sink(alloc)?;
    let outcome = outcome_of(rt, alloc, words, &mut source, &mut sink)?;
    Ok((outcome.status, sink))
}

/// Runs in memory, and compares the status and all that was written.
fn expect_run<R: Threads + Sync + Abort>(
    rt: &R,
    alloc: Global,
    words: &[&str],
    setting: MemSetting<'_>,
    status: Status,
    written: &[u8],
) -> Result<(), AllocError> {
    let (ended, sink) = run_in_memory(rt, alloc, words, setting)?;
    assert_eq!(rt; ended, status, "{setting}");
    assert_eq!(rt; sink.bytes(), written, "{setting}");
    Ok(())
}

/// The same for the words that ask for a session.
fn expect_uhp<R: Threads + Sync + Abort>(
    rt: &R,
    alloc: Global,
    setting: MemSetting<'_>,
    status: Status,
    written: &[u8],
) -> Result<(), AllocError> {
    expect_run(rt, alloc, &["uhp"], setting, status, written)
}

/// Gives the lines, which these texts make, in pieces of one byte, of seven, and of any size. It
/// compares all that is written with the greeting and these replies.
fn expect_session<R: Threads + Sync + Abort>(
    rt: &R,
    alloc: Global,
    lines: &[&str],
    replies: &[&str],
) -> Result<(), AllocError> {
    let input = lines.concat(alloc)?;
    let written = greeted(alloc, replies)?;
    for pieces in CUTS {
        let setting = MemSetting::of(input.as_bytes()).cut(pieces);
        expect_uhp(rt, alloc, setting, Status::Done, written.as_bytes())?;
    }
    Ok(())
}

/// The greeting, and then these replies, one after another.
fn greeted(alloc: Global, replies: &[&str]) -> Result<String, AllocError> {
    let replies = replies.concat(alloc)?;
    [GREETING, replies.as_str()].concat(alloc)
}

#[test]
fn the_words_decide(rt: HostRuntime) -> Result<(), Fail> {
    let session = greeted(rt.alloc(), &["err 1 unknown command\nok\n"])?;
    for (words, status, written) in [
        ([].as_slice(), Status::Done, session.as_str()),
        (["uhp"].as_slice(), Status::Done, session.as_str()),
        (["x"].as_slice(), Status::Usage, ""),
        (["uhp", "uhp"].as_slice(), Status::Usage, ""),
    ] {
        let setting = MemSetting::of(b"help\n".as_slice());
        expect_run(&rt, rt.alloc(), words, setting, status, written.as_bytes())?;
    }
    Ok(())
}

#[test]
fn a_reply_comes_before_the_next_line(rt: HostRuntime) -> Result<(), Fail> {
    let turns = [
        ("help\n", "err 1 unknown command\nok\n"),
        ("newgame Base\n", "Base;NotStarted;White[1]\nok\n"),
        ("bestmove depth 1\n", "wS1\nok\n"),
        ("play wS1\n", "Base;InProgress;Black[1];wS1\nok\n"),
        ("undo\n", "Base;NotStarted;White[1]\nok\n"),
        ("validmoves\n", "wS1;wB1;wG1;wA1\nok\n"),
    ];
    let taken = AtomicU64::new(0);
    let mut source = TurnSource::new(&taken, GREETING, &turns);
    let mut sink = CountedSink::new(&taken);
    let outcome = outcome_of(&rt, rt.alloc(), &["uhp"], &mut source, &mut sink)?;
    assert_eq!(rt; outcome.status, Status::Done);
    let mut length = GREETING.len();
    for (_, reply) in turns {
        length = length.saturating_add(reply.len());
    }
    assert_eq!(rt; taken.load(Ordering::SeqCst), length as u64);
    Ok(())
}
