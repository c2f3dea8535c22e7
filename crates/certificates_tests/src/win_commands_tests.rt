//! Solutions that are written, and texts that are checked.

use command_runs::Status::{self, BadInput, Done, ReadFault, Refused, WriteFault};
use fast_game::FastGame;
use io_edge::{MemSink, MemSource};
use memory_sides::{CUTS, MemSetting};
use std::alloc::{AllocError, Global};
use std::process::Abort;
use std::test::Fail;
use win_commands::{solve, verify};

/// The least solution of the opening of the base game within two plies.
const OPENING: &str = "hive-solution 1\nBase;NotStarted;White[1]\nplies 2\nanswer no\n0\n0\n0\n0\n";

/// A game whose side to move wins with its next move.
const WON: &str = concat!(
    "Base;InProgress;White[7];wS1;bS1 wS1-;wQ /wS1;bQ bS1-;wQ /bS1;bQ wQ-;wG1 -wS1;",
    "bG1 bS1-;wB1 /wQ;bB1 bQ-;wA1 -wB1;bA1 /bB1",
);

/// A finished game.
const DRAWN: &str = concat!(
    "Base;Draw;Black[7];wS1;bS1 wS1-;wQ /wS1;bQ bS1-;wQ wS1\\;bQ bS1\\;wG1 -wQ;bG1 bS1-;",
    "wB1 wG1\\;bB1 bQ-;wA1 -wB1;bA1 bQ\\;wA1 wQ\\",
);

/// The command to run: a solution within one ply or two, or a check.
#[derive(Clone, Copy, Debug)]
enum Asked {
    OnePly,
    TwoPlies,
    Verify,
}

/// Runs a command over these two sides, and answers the status with which it ended.
fn ended(alloc: Global, asked: Asked, source: &mut MemSource, sink: &mut MemSink) -> Status {
    match asked {
        Asked::OnePly => solve::<MemSource, MemSink, FastGame>(alloc, 1, source, sink),
        Asked::TwoPlies => solve::<MemSource, MemSink, FastGame>(alloc, 2, source, sink),
        Asked::Verify => verify::<MemSource, MemSink, FastGame>(alloc, source, sink),
    }
}

/// Runs a command in memory, and compares the status and everything written.
fn expect_run<R: Abort>(
    rt: &R,
    alloc: Global,
    asked: Asked,
    setting: MemSetting<'_>,
    status: Status,
    written: &str,
) -> Result<(), AllocError> {
    let mut source = setting.source(alloc)?;
    let mut sink = setting.sink(alloc)?;
    let ended = ended(alloc, asked, &mut source, &mut sink);
    assert_eq!(rt; ended, status, "{asked:?}, {setting}");
    assert_eq!(rt; sink.bytes(), written.as_bytes(), "{asked:?}, {setting}");
    Ok(())
}

/// Runs a command in which no call fails, in pieces of one byte, of seven bytes, and of any size.
fn expect_answer<R: Abort>(
    rt: &R,
    alloc: Global,
    asked: Asked,
    input: &str,
    status: Status,
    written: &str,
) -> Result<(), AllocError> {
    for pieces in CUTS {
        let setting = MemSetting::of(input.as_bytes()).cut(pieces);
        expect_run(rt, alloc, asked, setting, status, written)?;
    }
    Ok(())
}

#[test]
fn solutions_are_written(rt: HostRuntime) -> Result<(), Fail> {
    let none = "hive-solution 1\nBase;NotStarted;White[1]\nplies 1\nanswer no\n";
    for (asked, written) in [(Asked::OnePly, none), (Asked::TwoPlies, OPENING)] {
        expect_answer(&rt, rt.alloc(), asked, "Base\n", Done, written)?;
    }
    Ok(())
}

#[test]
fn a_win_is_told_by_one_index(rt: HostRuntime) -> Result<(), Fail> {
    let parts = ["hive-solution 1\n", WON, "\nplies 1\nanswer yes\n35\n"];
    let text = parts.concat(rt.alloc())?;
    for (asked, input, written) in [
        (Asked::OnePly, WON, text.as_str()),
        (Asked::Verify, text.as_str(), "accepted\n"),
    ] {
        expect_answer(&rt, rt.alloc(), asked, input, Done, written)?;
    }
    Ok(())
}

/// Inputs for which no solution is made, and the lines that say so.
const BAD_INPUTS: [(&str, &str); 4] = [
    ("", "bad no line\n"),
    ("Base;NotStarted;White[2]\n", "bad other turn\n"),
    (DRAWN, "bad game over\n"),
    ("Base\nBase\n", "bad more lines\n"),
];

#[test]
fn input_that_is_no_game_is_named(rt: HostRuntime) -> Result<(), Fail> {
    for (input, written) in BAD_INPUTS {
        expect_answer(&rt, rt.alloc(), Asked::OnePly, input, BadInput, written)?;
    }
    Ok(())
}

/// The answer and the other lines of texts about the opening of the base game, and what a check of
/// each answers.
const ANSWERS: [(&str, &str, Status, &str); 9] = [
    ("no", "0\n0\n0\n0", Done, "accepted\n"),
    ("no", "0\n0\n0\n", Refused, "refused short 3\n"),
    ("no", "24\n0\n0\n0\n", Refused, "refused index 1\n"),
    ("no", "0\n0\n0\n0\n0\n", Refused, "refused rest 4\n"),
    ("yes", "4\n", Refused, "refused index 1\n"),
    ("yes", "0\n", Refused, "refused leaf 1\n"),
    ("no", "0\n00\n0\n0\n", BadInput, "bad line 6\n"),
    ("no", "0\n0\n0\n5488\n", BadInput, "bad line 8\n"),
    ("maybe", "0\n", BadInput, "bad line 4\n"),
];

#[test]
fn indices_are_checked(rt: HostRuntime) -> Result<(), Fail> {
    let alloc = rt.alloc();
    expect_answer(&rt, alloc, Asked::Verify, OPENING, Done, "accepted\n")?;
    for (answer, rest, status, written) in ANSWERS {
        let parts = [
            "hive-solution 1\nBase\nplies 2\nanswer ",
            answer,
            "\n",
            rest,
        ];
        let text = parts.concat(alloc)?;
        expect_answer(&rt, alloc, Asked::Verify, text.as_str(), status, written)?;
    }
    Ok(())
}

/// Heads that are cut or malformed, and the lines that say so.
const HEADS: [(&str, &str); 8] = [
    ("", "bad line 1\n"),
    ("hive-solution 2\n", "bad line 1\n"),
    ("hive-certificate 1\n", "bad line 1\n"),
    ("hive-solution 1\n", "bad line 2\n"),
    ("hive-solution 1\nbase\n", "bad malformed part 1\n"),
    ("hive-solution 1\nBase\nplies 0\n", "bad line 3\n"),
    (
        "hive-solution 1\nBase\nplies 17\nanswer no\n",
        "bad line 3\n",
    ),
    ("hive-solution 1\nBase\nplies 16\n", "bad line 4\n"),
];

#[test]
fn heads_are_checked_line_by_line(rt: HostRuntime) -> Result<(), Fail> {
    for (input, written) in HEADS {
        expect_answer(&rt, rt.alloc(), Asked::Verify, input, BadInput, written)?;
    }
    Ok(())
}

#[test]
fn no_answer_is_about_a_finished_game(rt: HostRuntime) -> Result<(), Fail> {
    let alloc = rt.alloc();
    let text = ["hive-solution 1\n", DRAWN, "\nplies 1\nanswer no\n"].concat(alloc)?;
    let input = text.as_str();
    expect_answer(
        &rt,
        alloc,
        Asked::Verify,
        input,
        BadInput,
        "bad game over\n",
    )?;
    Ok(())
}

#[test]
fn a_failed_call_ends_a_run(rt: HostRuntime) -> Result<(), Fail> {
    for (asked, input, written) in [
        (Asked::TwoPlies, "Base\n", "hive-so"),
        (Asked::Verify, OPENING, "accepte"),
    ] {
        let setting = MemSetting::of(input.as_bytes());
        let read = setting.cut(&[1]).failing(2, 0);
        expect_run(&rt, rt.alloc(), asked, read, ReadFault, "")?;
        let write = setting.cut(&[7]).failing(0, 2);
        expect_run(&rt, rt.alloc(), asked, write, WriteFault, written)?;
    }
    Ok(())
}
