//! Matches and cups by the words that ask for them, over programs in memory.

use crate::runs::play;
use hive_cli::Status;
use io_edge::{Clock, StepClock};
use memory_sides::{MemSetting, Played, links_saying, spawner_of};
use std::alloc::{AllocError, Global};
use std::test::Fail;
use std::thread::Threads;

/// Runs these words by this clock, with this input, over programs that say this, in the order of
/// their starts. The start with this number fails (0: none fails).
pub(super) fn run_over<R: Threads + Sync, C: Clock>(
    rt: &R,
    alloc: Global,
    words: &[&str],
    input: &str,
    said: &[&[u8]],
    failing_start: u64,
    clock: &mut C,
) -> Result<Played<Status>, AllocError> {
    let spawner = spawner_of(alloc, links_saying(alloc, said)?, failing_start)?;
    let setting = MemSetting::of(input.as_bytes());
    play(rt, alloc, words, setting, clock, spawner)
}

/// What the programs of a cup of two engines say, in the order of their starts. In the second game
/// white ends at once.
const SAID: [&[u8]; 4] = [
    b"id A\nok\nok\nwS1\nok\nok\n",
    b"id B\nok\nok\nok\n",
    b"",
    b"id A\nok\n",
];

/// The text of that cup, with one ply in each game.
const TOLD: &[u8] = b"game 1 2 Base;InProgress;Black[1];wS1\nverdict 1 2 limit 1\n\
    game 2 1 Base;NotStarted;White[1]\nverdict 2 1 forfeit white ended\n\
    a points 3 games 2\nb points 1 games 2\n";

#[test]
fn a_cup_is_asked_for_by_its_words(rt: HostRuntime) -> Result<(), Fail> {
    let one_ply = ["cup", "--engines", "a;b", "--depth", "1", "--plies", "1"].as_slice();
    let nothing = [].as_slice();
    for (words, start, status, written) in [
        (one_ply, 0, Status::Done, TOLD),
        (one_ply, 3, Status::SpawnFault, nothing),
        (
            ["cup", "--engines", "a;a"].as_slice(),
            0,
            Status::Usage,
            nothing,
        ),
        (
            ["cup", "--engines", "a"].as_slice(),
            0,
            Status::Usage,
            nothing,
        ),
    ] {
        let mut clock = StepClock::new(0, 1);
        let played = run_over(&rt, rt.alloc(), words, "", &SAID, start, &mut clock)?;
        assert_eq!(rt; played.status, status);
        assert_eq!(rt; played.output.bytes(), written);
    }
    Ok(())
}

/// A game in which both queens leave their places and come back, twice.
const BACK_TWICE: [&str; 12] = [
    "wA1", "bA1 wA1-", "wQ -wA1", "bQ bA1-", "wQ \\wA1", "bQ bA1/", "wQ -wA1", "bQ bA1-",
    "wQ \\wA1", "bQ bA1/", "wQ -wA1", "bQ bA1-",
];

/// What a side says that plays its moves of that game: those with even numbers, counted from 0, or
/// those with odd ones.
fn said_by(alloc: Global, first: usize) -> Result<Vec<u8>, AllocError> {
    let mut said = Vec::from_slice(alloc, b"id x\nok\nok\n".as_slice())?;
    for ply in 0..BACK_TWICE.len() {
        if ply % 2 == first {
            said.extend_from_slice(BACK_TWICE[ply].as_bytes())?;
            said.extend_from_slice(b"\nok\n".as_slice())?;
        }
        said.extend_from_slice(b"ok\n".as_slice())?;
    }
    Ok(said)
}

/// The text of a match that ends because its position occurs for the third time.
const DRAWN: &[u8] = b"Base;Draw;White[7];wA1;bA1 wA1-;wQ -wA1;bQ bA1-;wQ \\wA1;bQ bA1/;\
    wQ -wA1;bQ bA1-;wQ \\wA1;bQ bA1/;wQ -wA1;bQ bA1-\nresult Draw\n";

/// The text of the same match without that rule, of twelve plies.
const LIMITED: &[u8] = b"Base;InProgress;White[7];wA1;bA1 wA1-;wQ -wA1;bQ bA1-;wQ \\wA1;bQ bA1/;\
    wQ -wA1;bQ bA1-;wQ \\wA1;bQ bA1/;wQ -wA1;bQ bA1-\nlimit 12\n";

#[test]
fn a_match_knows_the_rule_that_its_words_ask_for(rt: HostRuntime) -> Result<(), Fail> {
    let white = said_by(rt.alloc(), 0)?;
    let black = said_by(rt.alloc(), 1)?;
    let drawn = ["match", "--white", "a", "--black", "b", "--repetition", "1"].as_slice();
    let limited = ["match", "--white", "a", "--black", "b", "--plies", "12"].as_slice();
    for (words, written) in [(drawn, DRAWN), (limited, LIMITED)] {
        let said = [white.as_slice(), black.as_slice()];
        let mut clock = StepClock::new(0, 1);
        let played = run_over(&rt, rt.alloc(), words, "", &said, 0, &mut clock)?;
        assert_eq!(rt; played.status, Status::Done);
        assert_eq!(rt; played.output.bytes(), written);
    }
    Ok(())
}

/// What is said by white, which plays `wS1` and is told of it, and by black, which answers with a
/// move that is not legal.
const ILL_PLAYED: [&[u8]; 2] = [
    b"id A\nok\nx\nok\nwS1\nok\nx\nok\n",
    b"id B\nok\nx\nok\nx\nok\nbQ -wS1\nok\n",
];

#[test]
fn a_match_is_asked_for_by_its_words(rt: HostRuntime) -> Result<(), Fail> {
    let words = ["match", "--white", "w", "--black", "b", "--depth", "1"];
    let alloc = rt.alloc();
    for (start, status, written, to_white, to_black) in [
        (
            0,
            Status::Done,
            "Base;InProgress;Black[1];wS1\nforfeit black illegal bQ -wS1\n",
            "newgame Base\nbestmove depth 1\nplay wS1\n",
            "newgame Base\nplay wS1\nbestmove depth 1\n",
        ),
        (
            1,
            Status::SpawnFault,
            "",
            "none was closed",
            "none was closed",
        ),
        (2, Status::SpawnFault, "", "", "none was closed"),
    ] {
        let mut clock = StepClock::new(0, 1);
        let played = run_over(&rt, alloc, &words, "", &ILL_PLAYED, start, &mut clock)?;
        assert_eq!(rt; played.status, status);
        assert_eq!(rt; played.output.bytes(), written.as_bytes());
        assert_eq!(rt; played.sent(0), to_white.as_bytes());
        assert_eq!(rt; played.sent(1), to_black.as_bytes());
    }
    Ok(())
}
