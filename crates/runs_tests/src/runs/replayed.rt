//! Replays of a few lines.

use crate::runs::expect_run;
use hive_cli::Status;
use memory_sides::MemSetting;
use std::test::Fail;

/// A finished game, and a line that declares a state other than that of its game.
const LINES: &str = concat!(
    "Base;Draw;Black[7];wS1;bS1 wS1-;wQ /wS1;bQ bS1-;wQ wS1\\;bQ bS1\\;wG1 -wQ;bG1 bS1-;",
    "wB1 wG1\\;bB1 bQ-;wA1 -wB1;bA1 bQ\\;wA1 wQ\\\n",
    "Base;InProgress;White[1]\n",
);

const GAME: &str = concat!(
    "Base;Draw;Black[7];wS1;bS1 wS1-;wQ /wS1;bQ bS1-;wQ /bS1;bQ wQ-;wG1 -wQ;bG1 bS1-;",
    "wB1 /wQ;bB1 bQ-;wA1 -wB1;bA1 /bB1;wA1 wB1-\n",
);

const BOTH: &str = concat!(
    "Base;Draw;Black[7];wS1;bS1 wS1-;wQ /wS1;bQ bS1-;wQ /bS1;bQ wQ-;wG1 -wQ;bG1 bS1-;",
    "wB1 /wQ;bB1 bQ-;wA1 -wB1;bA1 /bB1;wA1 wB1-\n",
    "refused other state\n",
);

/// Lines, the greatest sizes of the pieces, the numbers of the read and of the write that fail, and
/// how a replay of them ends.
const REPLAYS: [(&str, &[usize], u64, u64, Status, &str); 8] = [
    (LINES, &[], 0, 0, Status::Refused, BOTH),
    (LINES, &[7], 0, 0, Status::Refused, BOTH),
    (LINES, &[], 0, 1, Status::WriteFault, ""),
    (LINES, &[], 0, 2, Status::WriteFault, GAME),
    (LINES, &[], 1, 0, Status::ReadFault, ""),
    (LINES, &[], 2, 0, Status::ReadFault, BOTH),
    ("", &[], 0, 0, Status::Done, ""),
    (GAME, &[], 0, 0, Status::Done, GAME),
];

#[test]
fn replays_write_an_answer_to_each_line(rt: HostRuntime) -> Result<(), Fail> {
    for (input, pieces, read, write, status, written) in REPLAYS {
        let setting = MemSetting::of(input.as_bytes()).cut(pieces);
        let failing = setting.failing(read, write);
        expect_run(&rt, rt.alloc(), &["replay"], failing, status, written)?;
    }
    Ok(())
}

/// A game in which the last position occurs for the third time.
const DRAWN: &str = "Base;Draw;White[7];wA1;bA1 wA1-;wQ -wA1;bQ bA1-;wQ \\wA1;bQ bA1/;\
                     wQ -wA1;bQ bA1-;wQ \\wA1;bQ bA1/;wQ -wA1;bQ bA1-\n";

/// The same game, which went on.
const WENT_ON: &str = "Base;InProgress;Black[7];wA1;bA1 wA1-;wQ -wA1;bQ bA1-;wQ \\wA1;bQ bA1/;\
                       wQ -wA1;bQ bA1-;wQ \\wA1;bQ bA1/;wQ -wA1;bQ bA1-;wQ \\wA1\n";

const OFF: &str = "refused other state\n";

const ON: &str = "refused illegal move 13\n";

/// Words, a game, and how a replay of it ends.
const RULED: [(&[&str], &str, Status, &str); 6] = [
    (&["replay", "--repetition", "1"], DRAWN, Status::Done, DRAWN),
    (&["replay", "--repetition=0"], DRAWN, Status::Refused, OFF),
    (&["replay"], DRAWN, Status::Refused, OFF),
    (&["replay"], WENT_ON, Status::Done, WENT_ON),
    (&["replay", "--repetition=1"], WENT_ON, Status::Refused, ON),
    (&["replay", "--repetition", "2"], DRAWN, Status::Usage, ""),
];

#[test]
fn replays_know_the_rule_that_they_are_asked_for(rt: HostRuntime) -> Result<(), Fail> {
    for (words, input, status, written) in RULED {
        let setting = MemSetting::of(input.as_bytes());
        expect_run(&rt, rt.alloc(), words, setting, status, written)?;
    }
    Ok(())
}
