//! Lines that are refused, each with its answer. What was there before is still there afterwards.

use crate::sessions::expect_session;
use std::test::Fail;

#[test]
fn without_a_game_there_is_nothing_to_play(rt: HostRuntime) -> Result<(), Fail> {
    for line in ["play wS1", "pass", "undo", "validmoves"] {
        expect_session(&rt, rt.alloc(), &[line], &["err 3 no game\nok\n"])?;
    }
    Ok(())
}

/// Lines that are not commands, and the answer to each.
const NO_COMMANDS: [(&str, &str); 7] = [
    ("\n", "err 1 unknown command"),
    ("help\n", "err 1 unknown command"),
    ("bestmove depth 65\n", "err 2 wrong arguments"),
    ("undo 0\n", "err 2 wrong arguments"),
    ("info x\n", "err 2 wrong arguments"),
    ("options set Workers 17\n", "err 9 value out of range"),
    ("options get Hash\n", "err 9 no such option"),
];

#[test]
fn a_line_that_is_no_command_is_refused(rt: HostRuntime) -> Result<(), Fail> {
    for (line, reply) in NO_COMMANDS {
        let lines = [line, "options\n"];
        let replies = [
            reply,
            concat!(
                "\nok\nTable;int;65536;65536;1;1048576\nWorkers;int;1;1;1;16\nRepetition;int;0;0;",
                "0;1\nok\n",
            ),
        ];
        expect_session(&rt, rt.alloc(), &lines, &replies)?;
    }
    Ok(())
}

/// Games that are refused, and the answer to each.
const REFUSED_GAMES: [(&str, &str); 5] = [
    ("Base;InProgress;Black[1];wS1;bS1 wS1-", "err 5 other turn"),
    ("Base;Draw;Black[1];wS1", "err 5 other state"),
    (
        "Base;InProgress;Black[2];wS1;bS1 wS1-;wQ -wS1;bQ -wS1",
        "err 6 illegal move 4",
    ),
    (
        "Base;InProgress;White[2];wS1;bS1 wS1-;",
        "err 4 malformed part 6",
    ),
    ("Base+PM", "err 4 malformed part 1"),
];

#[test]
fn a_game_that_is_refused_leaves_the_old_one(rt: HostRuntime) -> Result<(), Fail> {
    for (game, reply) in REFUSED_GAMES {
        let lines = ["newgame\nnewgame ", game, "\nvalidmoves\n"];
        let replies = [
            "Base;NotStarted;White[1]\nok\n",
            reply,
            "\nok\nwS1;wB1;wG1;wA1\nok\n",
        ];
        expect_session(&rt, rt.alloc(), &lines, &replies)?;
    }
    Ok(())
}

/// Lines that are refused after `wS1`, and the answer to each.
const REFUSED_MOVES: [(&str, &str); 5] = [
    ("play wS1", "invalidmove 1 unreadable"),
    ("play bS1 wA1-", "invalidmove 2 not in play wA1"),
    ("play bQ wS1-", "invalidmove 3 not legal"),
    ("pass", "invalidmove 3 not legal"),
    ("undo 2", "err 7 undo beyond start"),
];

#[test]
fn a_move_that_is_refused_is_not_made(rt: HostRuntime) -> Result<(), Fail> {
    for (line, reply) in REFUSED_MOVES {
        let lines = ["newgame\nplay wS1\n", line, "\nundo\n"];
        let replies = [
            "Base;NotStarted;White[1]\nok\nBase;InProgress;Black[1];wS1\nok\n",
            reply,
            "\nok\nBase;NotStarted;White[1]\nok\n",
        ];
        expect_session(&rt, rt.alloc(), &lines, &replies)?;
    }
    Ok(())
}

#[test]
fn moves_are_taken_back_as_far_as_the_start(rt: HostRuntime) -> Result<(), Fail> {
    let lines = ["newgame\nplay wS1\nplay bS1 wS1-\nundo 3\nundo 2\n"];
    let replies = [
        "Base;NotStarted;White[1]\nok\nBase;InProgress;Black[1];wS1\nok\n",
        "Base;InProgress;White[2];wS1;bS1 wS1-\nok\nerr 7 undo beyond start\nok\n",
        "Base;NotStarted;White[1]\nok\n",
    ];
    expect_session(&rt, rt.alloc(), &lines, &replies)?;
    Ok(())
}

#[test]
fn options_outlive_a_new_game(rt: HostRuntime) -> Result<(), Fail> {
    let lines = ["options\noptions set Workers 2\nnewgame\noptions get Workers\n"];
    let replies = [
        "Table;int;65536;65536;1;1048576\nWorkers;int;1;1;1;16\nRepetition;int;0;0;0;1\nok\n",
        "Workers;int;2;1;1;16\nok\n",
        "Base;NotStarted;White[1]\nok\n",
        "Workers;int;2;1;1;16\nok\n",
    ];
    expect_session(&rt, rt.alloc(), &lines, &replies)?;
    Ok(())
}
