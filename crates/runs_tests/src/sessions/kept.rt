//! Lines that are refused leave no trace. What is asked after them is answered as in a session that
//! never got them.

use crate::sessions::{expect_uhp, greeted, run_in_memory};
use hive_cli::Status;
use memory_sides::{CUTS, MemSetting};
use std::alloc::{AllocError, Global};
use std::process::Abort;
use std::test::Fail;
use std::thread::Threads;

/// The options of a session that set none.
const OPTIONS: &str =
    "Table;int;65536;65536;1;1048576\nWorkers;int;1;1;1;16\nRepetition;int;0;0;0;1\nok\n";

/// The first moves of white.
const FIRSTS: &str = "wS1;wB1;wG1;wA1\nok\n";

/// The moves of black after `wS1`.
const SECONDS: &str = "bS1 -wS1;bS1 /wS1;bS1 \\wS1;bS1 wS1\\;bS1 wS1/;bS1 wS1-;\
                       bB1 -wS1;bB1 /wS1;bB1 \\wS1;bB1 wS1\\;bB1 wS1/;bB1 wS1-;\
                       bG1 -wS1;bG1 /wS1;bG1 \\wS1;bG1 wS1\\;bG1 wS1/;bG1 wS1-;\
                       bA1 -wS1;bA1 /wS1;bA1 \\wS1;bA1 wS1\\;bA1 wS1/;bA1 wS1-\nok\n";

/// The last lines of most sessions.
const ALL: &str = "options\nvalidmoves\n";

/// Lines, further lines that are refused after them with the reply to each, and lines that are
/// asked at the end with their replies.
#[derive(Clone, Copy)]
struct Talk<'a> {
    before: &'a [&'a str],
    refused: &'a [(&'a str, &'a str)],
    asked: &'a str,
    told: &'a [&'a str],
}

/// What a session without failed calls writes for these lines.
fn written_for<R: Threads + Sync>(
    rt: &R,
    alloc: Global,
    lines: &[&str],
) -> Result<Vec<u8>, AllocError> {
    let input = lines.concat(alloc)?;
    let setting = MemSetting::of(input.as_bytes());
    let (_, sink) = run_in_memory(rt, alloc, &["uhp"], setting)?;
    Vec::from_slice(alloc, sink.bytes())
}

/// Gives lines, the given ones of those that are refused, and what is asked at the end, in pieces
/// of one byte, of seven, and of any size.
fn expect_no_trace<R: Threads + Sync + Abort>(
    rt: &R,
    alloc: Global,
    talk: &Talk<'_>,
    refused: &[(&str, &str)],
) -> Result<(), AllocError> {
    let mut input = talk.before.concat(alloc)?;
    let mut written = written_for(rt, alloc, talk.before)?;
    for (line, reply) in refused {
        input.push_str(line)?;
        written.extend_from_slice(reply.as_bytes())?;
        written.extend_from_slice(b"\nok\n".as_slice())?;
    }
    input.push_str(talk.asked)?;
    written.extend_from_slice(talk.told.concat(alloc)?.as_bytes())?;
    for pieces in CUTS {
        let setting = MemSetting::of(input.as_bytes()).cut(pieces);
        expect_uhp(rt, alloc, setting, Status::Done, written.as_slice())?;
    }
    Ok(())
}

/// Gives the refused lines one at a time, and then all of them.
fn expect_kept<R: Threads + Sync + Abort>(
    rt: &R,
    alloc: Global,
    talk: &Talk<'_>,
) -> Result<(), AllocError> {
    for place in 0..talk.refused.len() {
        expect_no_trace(rt, alloc, talk, &talk.refused[place..=place])?;
    }
    expect_no_trace(rt, alloc, talk, talk.refused)
}

/// Talks about short games, or none.
const SHORT: [Talk<'static>; 5] = [
    Talk {
        before: &["newgame\nplay wS1\n"],
        refused: &[
            ("pass\n", "invalidmove 3 not legal"),
            ("play pass\n", "invalidmove 3 not legal"),
            ("play wS1\n", "invalidmove 1 unreadable"),
            ("play bS1 wA1-\n", "invalidmove 2 not in play wA1"),
            ("play bQ wS1-\n", "invalidmove 3 not legal"),
            ("undo 2\n", "err 7 undo beyond start"),
        ],
        asked: ALL,
        told: &[OPTIONS, SECONDS],
    },
    Talk {
        before: &["newgame\nplay wS1\nplay bS1 wS1-\n"],
        refused: &[("undo 3\n", "err 7 undo beyond start")],
        asked: "options\nundo 2\nvalidmoves\n",
        told: &[OPTIONS, "Base;NotStarted;White[1]\nok\n", FIRSTS],
    },
    Talk {
        before: &["newgame\n"],
        refused: &[
            (
                "newgame Base;InProgress;Black[1];wS1;bS1 wS1-\n",
                "err 5 other turn",
            ),
            ("newgame Base;Draw;Black[1];wS1\n", "err 5 other state"),
            (
                "newgame Base;InProgress;Black[2];wS1;bS1 wS1-;wQ -wS1;bQ -wS1\n",
                "err 6 illegal move 4",
            ),
            (
                "newgame Base;InProgress;White[2];wS1;bS1 wS1-;\n",
                "err 4 malformed part 6",
            ),
            ("newgame Base+PM\n", "err 4 malformed part 1"),
            ("\n", "err 1 unknown command"),
            ("help\n", "err 1 unknown command"),
            ("bestmove depth 65\n", "err 2 wrong arguments"),
            ("undo 0\n", "err 2 wrong arguments"),
            ("info x\n", "err 2 wrong arguments"),
        ],
        asked: ALL,
        told: &[OPTIONS, FIRSTS],
    },
    Talk {
        before: &[""],
        refused: &[
            ("play wS1\n", "err 3 no game"),
            ("pass\n", "err 3 no game"),
            ("undo\n", "err 3 no game"),
            ("validmoves\n", "err 3 no game"),
            ("bestmove depth 1\n", "err 3 no game"),
            ("newgame Base+PM\n", "err 4 malformed part 1"),
        ],
        asked: ALL,
        told: &[OPTIONS, "err 3 no game\nok\n"],
    },
    Talk {
        before: &["newgame\noptions set Workers 2\n"],
        refused: &[
            ("options set Workers 17\n", "err 9 value out of range"),
            ("options get Hash\n", "err 9 no such option"),
        ],
        asked: ALL,
        told: &[
            "Table;int;65536;65536;1;1048576\nWorkers;int;2;1;1;16\n",
            "Repetition;int;0;0;0;1\nok\n",
            FIRSTS,
        ],
    },
];

#[test]
fn refused_lines_of_a_short_game_leave_no_trace(rt: HostRuntime) -> Result<(), Fail> {
    for talk in &SHORT {
        expect_kept(&rt, rt.alloc(), talk)?;
    }
    Ok(())
}

#[test]
fn a_line_that_is_too_long_leaves_no_trace(rt: HostRuntime) -> Result<(), Fail> {
    let alloc = rt.alloc();
    let letters = "a".repeat(alloc, 65537)?;
    let input = ["newgame\n", letters.as_str(), "\noptions\nvalidmoves\n"].concat(alloc)?;
    let start = "Base;NotStarted;White[1]\nok\nerr 10 line too long\nok\n";
    let written = greeted(alloc, &[start, OPTIONS, FIRSTS])?;
    let setting = MemSetting::of(input.as_bytes());
    for setting in [setting.cut(&[7]), setting] {
        expect_uhp(&rt, alloc, setting, Status::Done, written.as_bytes())?;
    }
    Ok(())
}

/// A game that ends in a draw, without its last move.
const BEFORE_A_DRAW: &str = concat!(
    "wS1;bS1 wS1-;wQ /wS1;bQ bS1-;wQ /bS1;bQ wQ-;wG1 -wQ;bG1 bS1-;wB1 /wQ;bB1 bQ-;",
    "wA1 -wB1;bA1 /bB1",
);

/// A game in which black can only pass.
const PASSING: &str =
    "wB1;bS1 wB1-;wQ \\wB1;bQ bS1-;wQ wB1/;bQ bS1\\;wB1 bS1;bQ wB1-;wB2 /wB1;bQ wB2-;wB2 bQ";

/// Talks about a game that is over, and about one in which black has to pass.
const LONG: [Talk<'static>; 2] = [
    Talk {
        before: &["newgame Base;Draw;Black[7];", BEFORE_A_DRAW, ";wA1 wB1-\n"],
        refused: &[
            ("validmoves\n", "err 8 game over"),
            ("bestmove depth 1\n", "err 8 game over"),
            ("play pass\n", "invalidmove 4 game over"),
            ("pass\n", "invalidmove 4 game over"),
            ("undo 14\n", "err 7 undo beyond start"),
        ],
        asked: "options\nvalidmoves\nundo\nplay wA1 wB1-\n",
        told: &[
            OPTIONS,
            "err 8 game over\nok\nBase;InProgress;White[7];",
            BEFORE_A_DRAW,
            "\nok\nBase;Draw;Black[7];",
            BEFORE_A_DRAW,
            ";wA1 wB1-\nok\n",
        ],
    },
    Talk {
        before: &["newgame Base;InProgress;Black[6];", PASSING, "\n"],
        refused: &[
            ("play wQ -bS1\n", "invalidmove 3 not legal"),
            ("undo 12\n", "err 7 undo beyond start"),
            ("play pass x\n", "invalidmove 1 unreadable"),
        ],
        asked: "options\nvalidmoves\npass\n",
        told: &[
            OPTIONS,
            "pass\nok\nBase;InProgress;White[7];",
            PASSING,
            ";pass\nok\n",
        ],
    },
];

#[test]
fn refused_lines_of_long_games_leave_no_trace(rt: HostRuntime) -> Result<(), Fail> {
    for talk in &LONG {
        expect_kept(&rt, rt.alloc(), talk)?;
    }
    Ok(())
}
