//! Matches with a time, by the words that ask for them and the readings of a clock.

use crate::runs::programs::run_over;
use hive_cli::Status;
use io_edge::MemClock;
use std::alloc::{AllocError, Global};
use std::process::Abort;
use std::test::Fail;
use std::thread::Threads;

/// White greets, begins, plays `wS1`, and is told of it and of black's move.
const WHITE: &[u8] = b"id A\nok\nok\nwS1\nok\nok\nok\nwQ /wS1\nok\nok\n";

/// Black greets, begins, is told of white's move, and answers with its own.
const BLACK: &[u8] = b"id B\nok\nok\nok\nbS1 wS1-\nok\nok\nok\n";

/// The readings of a clock, the limit of plies, and the result: what is written, and what was sent
/// to white and to black.
struct Case<'a> {
    readings: &'a [u64],
    plies: &'a str,
    written: &'a [u8],
    to_white: &'a [u8],
    to_black: &'a [u8],
}

const CASES: [Case<'static>; 5] = [
    Case {
        readings: &[100, 1150],
        plies: "1",
        written: b"Base;InProgress;Black[1];wS1\nlimit 1\n",
        to_white: b"newgame Base\nbestmove time 00:00:01\nplay wS1\n",
        to_black: b"newgame Base\nplay wS1\n",
    },
    Case {
        readings: &[100, 1151],
        plies: "1",
        written: b"Base;NotStarted;White[1]\nforfeit white late 100 1151\n",
        to_white: b"newgame Base\nbestmove time 00:00:01\n",
        to_black: b"newgame Base\n",
    },
    Case {
        readings: &[100, 1150, 2000, 3050],
        plies: "2",
        written: b"Base;InProgress;White[2];wS1;bS1 wS1-\nlimit 2\n",
        to_white: b"newgame Base\nbestmove time 00:00:01\nplay wS1\nplay bS1 wS1-\n",
        to_black: b"newgame Base\nplay wS1\nbestmove time 00:00:01\nplay bS1 wS1-\n",
    },
    Case {
        readings: &[100, 1150, 2000, 3051],
        plies: "2",
        written: b"Base;InProgress;Black[1];wS1\nforfeit black late 2000 3051\n",
        to_white: b"newgame Base\nbestmove time 00:00:01\nplay wS1\n",
        to_black: b"newgame Base\nplay wS1\nbestmove time 00:00:01\n",
    },
    Case {
        readings: &[100, 100, 100, 100, 100, 1151],
        plies: "3",
        written: b"Base;InProgress;White[2];wS1;bS1 wS1-\nforfeit white late 100 1151\n",
        to_white: b"newgame Base\nbestmove time 00:00:01\nplay wS1\nplay bS1 wS1-\n\
            bestmove time 00:00:01\n",
        to_black: b"newgame Base\nplay wS1\nbestmove time 00:00:01\nplay bS1 wS1-\n",
    },
];

/// Plays the match of a case, with a second and a margin of 50 milliseconds for both sides, and
/// compares the whole result.
fn expect_case<R: Threads + Sync + Abort>(
    rt: &R,
    alloc: Global,
    case: &Case<'_>,
) -> Result<(), AllocError> {
    let words = [
        "match", "--white", "a", "--black", "b", "--time", "00:00:01", "--margin", "50", "--plies",
        case.plies,
    ];
    let mut clock = MemClock::new(Vec::from_slice(alloc, case.readings)?);
    let played = run_over(rt, alloc, &words, "", &[WHITE, BLACK], 0, &mut clock)?;
    assert_eq!(rt; played.status, Status::Done);
    assert_eq!(rt; played.output.bytes(), case.written);
    assert_eq!(rt; played.sent(0), case.to_white);
    assert_eq!(rt; played.sent(1), case.to_black);
    Ok(())
}

#[test]
fn late_answers_forfeit_by_the_readings_of_the_clock(rt: HostRuntime) -> Result<(), Fail> {
    for case in &CASES {
        expect_case(&rt, rt.alloc(), case)?;
    }
    Ok(())
}
