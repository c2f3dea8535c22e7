//! Counts of lists of legal moves, input that is not a game to count, and words that do not ask for
//! a count.

use crate::runs::expect_run;
use hive_cli::Status::{self, BadInput, Done, ReadFault, Usage, WriteFault};
use memory_sides::{CUTS, MemSetting};
use std::alloc::{AllocError, Global};
use std::process::Abort;
use std::test::Fail;
use std::thread::Threads;

/// The counts of the opening of the base game.
const COUNTS: &str = "1 4\n2 96\n3 1440\n4 21600\n";

/// A finished game.
const DRAW: &str = concat!(
    "Base;Draw;Black[7];wS1;bS1 wS1-;wQ /wS1;bQ bS1-;wQ wS1\\;bQ bS1\\;wG1 -wQ;",
    "bG1 bS1-;wB1 wG1\\;bB1 bQ-;wA1 -wB1;bA1 bQ\\;wA1 wQ\\\n",
);

/// The words that ask for the counts of up to two plies.
const TWO_PLIES: [&str; 3] = ["count", "--plies", "2"];

/// A run without failed calls that asks for counts of up to two plies.
fn expect_counts<R: Threads + Sync + Abort>(
    rt: &R,
    alloc: Global,
    input: &str,
    status: Status,
    written: &str,
) -> Result<(), AllocError> {
    for pieces in CUTS {
        let setting = MemSetting::of(input.as_bytes()).cut(pieces);
        expect_run(rt, alloc, &TWO_PLIES, setting, status, written)?;
    }
    Ok(())
}

#[test]
fn lists_of_four_plies_are_counted(rt: HostRuntime) -> Result<(), Fail> {
    for (game, written) in [
        ("Base\n", COUNTS),
        ("Base+MLP\n", "1 7\n2 294\n3 6678\n4 151686\n"),
    ] {
        let words = ["count", "--plies", "4"];
        let setting = MemSetting::of(game.as_bytes());
        expect_run(&rt, rt.alloc(), &words, setting, Done, written)?;
    }
    Ok(())
}

#[test]
fn workers_count_what_one_counts(rt: HostRuntime) -> Result<(), Fail> {
    for workers in ["1", "3", "16"] {
        let words = ["count", "--plies", "4", "--workers", workers];
        let setting = MemSetting::of(b"Base\n");
        expect_run(&rt, rt.alloc(), &words, setting, Done, COUNTS)?;
    }
    Ok(())
}

/// The parts of the counts behind a lone piece.
const PARTS: &str = concat!(
    "6 Base;InProgress;White[2];wS1;bS1 -wS1\n6 Base;InProgress;White[2];wS1;bB1 -wS1\n",
    "6 Base;InProgress;White[2];wS1;bG1 -wS1\n6 Base;InProgress;White[2];wS1;bA1 -wS1\n",
);

#[test]
fn a_game_is_split_into_its_parts(rt: HostRuntime) -> Result<(), Fail> {
    let words = ["count", "--plies=2", "--split=1"];
    for (input, status, written) in [
        ("Base;InProgress;Black[1];wS1\n", Done, PARTS),
        ("Base\nBase\n", BadInput, "bad more lines\n"),
    ] {
        let setting = MemSetting::of(input.as_bytes());
        expect_run(&rt, rt.alloc(), &words, setting, status, written)?;
    }
    Ok(())
}

/// Games, and the counts of up to two plies after each.
const BEGUN: [(&str, &str); 3] = [
    ("Base", "1 4\n2 96\n"),
    ("Base;InProgress;Black[1];wS1\r\n", "1 24\n2 360\n"),
    ("Base+MLP;InProgress;Black[1];wS1\n", "1 42\n2 1008\n"),
];

#[test]
fn counts_begin_after_the_moves_of_the_game(rt: HostRuntime) -> Result<(), Fail> {
    for (input, written) in BEGUN {
        expect_counts(&rt, rt.alloc(), input, Done, written)?;
    }
    Ok(())
}

/// Inputs that are not a game to count, and the line that says so.
const BAD_INPUTS: [(&str, &str); 8] = [
    ("", "bad no line\n"),
    ("\n", "bad malformed part 1\n"),
    (
        "Base;InProgress;Black[2];wS1;bS1 wS1-;wQ -wS1;bQ -wS1\n",
        "bad illegal move 4\n",
    ),
    ("Base;Draw;Black[1];wS1\n", "bad other state\n"),
    ("Base;InProgress;White[1];wS1\nBase\n", "bad other turn\n"),
    (DRAW, "bad game over\n"),
    ("Base\n\n", "bad more lines\n"),
    ("Base\nBase", "bad more lines\n"),
];

#[test]
fn bad_input_is_named(rt: HostRuntime) -> Result<(), Fail> {
    for (input, written) in BAD_INPUTS {
        expect_counts(&rt, rt.alloc(), input, BadInput, written)?;
    }
    Ok(())
}

#[test]
fn a_game_may_be_too_long(rt: HostRuntime) -> Result<(), Fail> {
    let alloc = rt.alloc();
    let line = "a".repeat(alloc, 65537)?;
    let moves = ";wS1".repeat(alloc, 5001)?;
    let game = ["Base;InProgress;White[2501]", moves.as_str()].concat(alloc)?;
    for (input, written) in [
        (line.as_str(), "bad line too long\n"),
        (game.as_str(), "bad too many plies\n"),
    ] {
        expect_counts(&rt, alloc, input, BadInput, written)?;
    }
    Ok(())
}

#[test]
fn an_option_is_written_in_one_word_or_in_two(rt: HostRuntime) -> Result<(), Fail> {
    for words in [["count", "--plies=2"].as_slice(), TWO_PLIES.as_slice()] {
        let setting = MemSetting::of(b"Base\n");
        expect_run(&rt, rt.alloc(), words, setting, Done, "1 4\n2 96\n")?;
    }
    Ok(())
}

/// Words that begin like those of a count, but do not ask for one.
const OTHER_WORDS: [&[&str]; 13] = [
    &["count"],
    &["count", "2"],
    &["count", "--plies"],
    &["count", "--plies="],
    &["count", "--plies", "0"],
    &["count", "--plies", "9"],
    &["count", "--plies", "02"],
    &["count", "--plies", "-2"],
    &["count", "--plys", "2"],
    &["count", "-plies", "2"],
    &["count", "--plies", "2", "--plies", "2"],
    &["count", "--plies=2", "x"],
    &["--plies=2", "count"],
];

#[test]
fn other_words_ask_for_no_count(rt: HostRuntime) -> Result<(), Fail> {
    for words in OTHER_WORDS {
        let setting = MemSetting::of(b"Base\n").failing(1, 1);
        expect_run(&rt, rt.alloc(), words, setting, Usage, "")?;
    }
    Ok(())
}

#[test]
fn a_failed_read_ends_a_count(rt: HostRuntime) -> Result<(), Fail> {
    // five bytes, and the read that finds the end
    for (piece, reads) in [(1, 6), (7, 2)] {
        let sizes = [piece];
        let setting = MemSetting::of(b"Base\n").cut(&sizes);
        for read in 1..=reads {
            let failing = setting.failing(read, 0);
            expect_run(&rt, rt.alloc(), &TWO_PLIES, failing, ReadFault, "")?;
        }
    }
    Ok(())
}

/// An input, the greatest size of a piece, the number of the write that fails, and what is written.
const CUT: [(&str, usize, u64, &str); 5] = [
    ("Base\n", 1, 1, ""),
    ("Base\n", 1, 6, "1 4\n2"),
    ("Base\n", 7, 2, "1 4\n"),
    ("Base\n\n", 1, 4, "bad"),
    ("Base\n\n", 7, 2, "bad mor"),
];

#[test]
fn a_failed_write_ends_a_count(rt: HostRuntime) -> Result<(), Fail> {
    for (input, piece, write, written) in CUT {
        let sizes = [piece];
        let setting = MemSetting::of(input.as_bytes()).cut(&sizes);
        let failing = setting.failing(0, write);
        expect_run(&rt, rt.alloc(), &TWO_PLIES, failing, WriteFault, written)?;
    }
    Ok(())
}
