//! Best moves of worked games.

use crate::sessions::{expect_session, expect_uhp, greeted, outcome_of};
use hive_cli::Status;
use hive_model::Timed;
use memory_sides::MemSetting;
use std::alloc::{AllocError, Global};
use std::test::Fail;
use std::thread::Threads;

const EMPTY: &str = "Base;NotStarted;White[1]\nok\n";

/// The moves of a game in which white's next move can surround the black queen.
const BEFORE_THE_WIN: &str = concat!(
    "wS1;bS1 wS1-;wQ /wS1;bQ bS1-;wQ /bS1;bQ wQ-;wG1 -wS1;bG1 bS1-;wB1 /wQ;bB1 bQ-;",
    "wA1 -wB1;bA1 /bB1",
);

#[test]
fn the_first_of_equal_moves_is_named(rt: HostRuntime) -> Result<(), Fail> {
    let lines = [
        "newgame\nbestmove depth 1\nbestmove depth 2\n",
        "play wS1\nbestmove depth 1\nvalidmoves\nundo\n",
    ];
    let replies = [
        EMPTY,
        "wS1\nok\nwA1\nok\n",
        "Base;InProgress;Black[1];wS1\nok\nbS1 -wS1\nok\n",
        "bS1 -wS1;bS1 /wS1;bS1 \\wS1;bS1 wS1\\;bS1 wS1/;bS1 wS1-;",
        "bB1 -wS1;bB1 /wS1;bB1 \\wS1;bB1 wS1\\;bB1 wS1/;bB1 wS1-;",
        "bG1 -wS1;bG1 /wS1;bG1 \\wS1;bG1 wS1\\;bG1 wS1/;bG1 wS1-;",
        "bA1 -wS1;bA1 /wS1;bA1 \\wS1;bA1 wS1\\;bA1 wS1/;bA1 wS1-\nok\n",
        EMPTY,
    ];
    expect_session(&rt, rt.alloc(), &lines, &replies)?;
    Ok(())
}

/// Lines that set an option, and the answer to each.
const OPTIONS: [(&str, &str); 4] = [
    ("options set Table 1\n", "Table;int;1;65536;1;1048576\nok\n"),
    ("options set Workers 1\n", "Workers;int;1;1;1;16\nok\n"),
    ("options set Workers 2\n", "Workers;int;2;1;1;16\nok\n"),
    ("options set Workers 16\n", "Workers;int;16;1;1;16\nok\n"),
];

#[test]
fn a_win_is_found_whatever_the_options(rt: HostRuntime) -> Result<(), Fail> {
    for (options, told) in OPTIONS {
        let lines = [
            options,
            "newgame Base;InProgress;White[7];",
            BEFORE_THE_WIN,
            "\nbestmove depth 1\nbestmove depth 2\n",
        ];
        let replies = [
            told,
            "Base;InProgress;White[7];",
            BEFORE_THE_WIN,
            "\nok\nwA1 wB1-\nok\nwA1 wB1-\nok\n",
        ];
        expect_session(&rt, rt.alloc(), &lines, &replies)?;
    }
    Ok(())
}

#[test]
fn a_win_is_found_three_plies_deep(rt: HostRuntime) -> Result<(), Fail> {
    let lines = [
        "newgame Base;InProgress;White[7];",
        BEFORE_THE_WIN,
        "\nbestmove depth 3\nplay wA1 wB1-\nbestmove depth 1\n",
    ];
    let replies = [
        "Base;InProgress;White[7];",
        BEFORE_THE_WIN,
        "\nok\nwA1 wB1-\nok\nBase;WhiteWins;Black[7];",
        BEFORE_THE_WIN,
        ";wA1 wB1-\nok\nerr 8 game over\nok\n",
    ];
    let alloc = rt.alloc();
    let input = lines.concat(alloc)?;
    let setting = MemSetting::of(input.as_bytes());
    let written = greeted(alloc, &replies)?;
    expect_uhp(&rt, alloc, setting, Status::Done, written.as_bytes())?;
    Ok(())
}

#[test]
fn a_pass_may_be_the_best_move(rt: HostRuntime) -> Result<(), Fail> {
    let game = "Base;InProgress;Black[6];wB1;bS1 wB1-;wQ \\wB1;bQ bS1-;wQ wB1/;bQ bS1\\;\
                wB1 bS1;bQ wB1-;wB2 /wB1;bQ wB2-;wB2 bQ";
    let lines = ["newgame ", game, "\nbestmove depth 1\n"];
    let replies = [game, "\nok\npass\nok\n"];
    expect_session(&rt, rt.alloc(), &lines, &replies)?;
    Ok(())
}

#[test]
fn what_is_no_question_is_refused(rt: HostRuntime) -> Result<(), Fail> {
    let lines = [
        "bestmove depth 1\nbestmove time 00:00:01\n",
        "newgame\nbestmove time 1\nbestmove\nbestmove depth 0\n",
    ];
    let replies = [
        "err 3 no game\nok\nerr 3 no game\nok\n",
        EMPTY,
        "err 2 wrong arguments\nok\nerr 2 wrong arguments\nok\nerr 2 wrong arguments\nok\n",
    ];
    expect_session(&rt, rt.alloc(), &lines, &replies)?;
    Ok(())
}

/// The entries of a session of these lines, and what it wrote. Its clock advances by a millisecond
/// at each reading.
fn timed_session<R: Threads + Sync>(
    rt: &R,
    alloc: Global,
    lines: &str,
) -> Result<(Vec<Timed>, Vec<u8>), AllocError> {
    let setting = MemSetting::of(lines.as_bytes());
    let mut source = setting.source(alloc)?;
    let mut sink = setting.sink(alloc)?;
    let outcome = outcome_of(rt, alloc, &["uhp"], &mut source, &mut sink)?;
    let entries = Vec::from_slice(alloc, outcome.timed.items())?;
    Ok((entries, Vec::from_slice(alloc, sink.bytes())?))
}

#[test]
fn no_time_is_time_for_one_ply(rt: HostRuntime) -> Result<(), Fail> {
    let (entries, written) = timed_session(&rt, rt.alloc(), "newgame\nbestmove time 00:00:00\n")?;
    let wanted = greeted(rt.alloc(), &[EMPTY, "wS1\nok\n"])?;
    assert_eq!(rt; written.as_slice(), wanted.as_bytes());
    assert_eq!(rt; entries.len(), 1);
    for entry in entries.iter() {
        assert_eq!(rt; entry.depth, 1);
        assert_eq!(rt; entry.budget, 0);
    }
    Ok(())
}

#[test]
fn more_time_is_time_for_more_plies(rt: HostRuntime) -> Result<(), Fail> {
    let lines = "newgame\nbestmove time 00:00:01\nbestmove depth 1\nbestmove time 00:00:00\n";
    let (entries, _written) = timed_session(&rt, rt.alloc(), lines)?;
    assert_eq!(rt; entries.len(), 2);
    for (entry, budget) in entries.iter().zip([1000, 0]) {
        assert_eq!(rt; entry.budget, budget);
        assert_eq!(rt; entry.depth > 1, budget > 0);
    }
    Ok(())
}
