//! What a book names, and how its run ends.

use book_command::book;
use command_runs::Status::{self, BadInput, Done, ReadFault, WriteFault};
use fast_game::FastGame;
use io_edge::{MemSink, MemSource};
use memory_sides::{CUTS, MemSetting};
use std::alloc::{AllocError, Global};
use std::process::Abort;
use std::test::Fail;

/// A lone spider.
const SPIDER: &str = "Base;InProgress;Black[1];wS1";

const FIRST: &str = "Base;InProgress;White[2];wS1;bG1 wS1/";

const SECOND: &str = "Base;InProgress;White[2];wS1;bG1 -wS1";

const THIRD: &str = "Base;InProgress;White[2];wS1;bA1 wS1-";

/// Black answers a lone spider with a grasshopper in two games, and with an ant in one.
const REPLIES: [&str; 3] = [FIRST, SECOND, THIRD];

/// A finished game, in which Black answers with a spider.
const DRAWN: &str = concat!(
    "Base;Draw;Black[7];wS1;bS1 wS1-;wQ /wS1;bQ bS1-;wQ wS1\\;bQ bS1\\;wG1 -wQ;bG1 bS1-;",
    "wB1 wG1\\;bB1 bQ-;wA1 -wB1;bA1 bQ\\;wA1 wQ\\",
);

/// No game: a lone spider is no drawn game.
const NO_GAME: &str = "Base;Draw;Black[1];wS1";

/// Three pieces that no symmetry maps to themselves.
const CROOKED: &str = "Base;InProgress;Black[2];wS1;bG1 wS1-;wA1 \\wS1";

/// The same three pieces turned six ways and mirrored, with the same answer to each.
const TURNED: [&str; 12] = [
    "Base;InProgress;White[3];wS1;bG1 wS1-;wA1 \\wS1;bA1 bG1-",
    "Base;InProgress;White[3];wS1;bG1 wS1-;wA1 /wS1;bA1 bG1-",
    "Base;InProgress;White[3];wS1;bG1 wS1/;wA1 -wS1;bA1 bG1/",
    "Base;InProgress;White[3];wS1;bG1 wS1/;wA1 wS1\\;bA1 bG1/",
    "Base;InProgress;White[3];wS1;bG1 \\wS1;wA1 /wS1;bA1 \\bG1",
    "Base;InProgress;White[3];wS1;bG1 \\wS1;wA1 wS1-;bA1 \\bG1",
    "Base;InProgress;White[3];wS1;bG1 -wS1;wA1 wS1\\;bA1 -bG1",
    "Base;InProgress;White[3];wS1;bG1 -wS1;wA1 wS1/;bA1 -bG1",
    "Base;InProgress;White[3];wS1;bG1 /wS1;wA1 wS1-;bA1 /bG1",
    "Base;InProgress;White[3];wS1;bG1 /wS1;wA1 \\wS1;bA1 /bG1",
    "Base;InProgress;White[3];wS1;bG1 wS1\\;wA1 wS1/;bA1 bG1\\",
    "Base;InProgress;White[3];wS1;bG1 wS1\\;wA1 -wS1;bA1 bG1\\",
];

/// The input of these lines, each ended by LF.
fn input_of(alloc: Global, lines: &[&str]) -> Result<Vec<u8>, AllocError> {
    let mut input = Vec::new(alloc);
    for line in lines {
        input.extend_from_slice(line.as_bytes())?;
        input.push(b'\n')?;
    }
    Ok(input)
}

/// Runs a book in memory, and compares the status and everything written.
fn expect_run<R: Abort>(
    rt: &R,
    alloc: Global,
    setting: MemSetting<'_>,
    status: Status,
    written: &str,
) -> Result<(), AllocError> {
    let mut source = setting.source(alloc)?;
    let mut sink = setting.sink(alloc)?;
    let ended = book::<MemSource, MemSink, FastGame>(alloc, &mut source, &mut sink);
    assert_eq!(rt; ended, status, "{written}, {setting}");
    assert_eq!(rt; sink.bytes(), written.as_bytes(), "{setting}");
    Ok(())
}

/// Runs a book over a position and games, in pieces of one byte, of seven bytes, and of any size.
fn expect_book<R: Abort>(
    rt: &R,
    alloc: Global,
    position: &str,
    games: &[&str],
    status: Status,
    written: &str,
) -> Result<(), AllocError> {
    let mut input = input_of(alloc, &[position])?;
    input.extend_from_slice(input_of(alloc, games)?.as_slice())?;
    for pieces in CUTS {
        let setting = MemSetting::of(input.as_slice()).cut(pieces);
        expect_run(rt, alloc, setting, status, written)?;
    }
    Ok(())
}

/// A position, games, and what the book of these games names there.
const BOOKS: [(&str, &[&str], &str); 5] = [
    (SPIDER, &REPLIES, "book bG1 -wS1 2\n"),
    ("Base", &REPLIES, "book wS1 3\n"),
    (SPIDER, &[], "book none\n"),
    (SPIDER, &[DRAWN], "book bS1 -wS1 1\n"),
    (SPIDER, &["Base+M"], "book none\n"),
];

#[test]
fn the_move_that_was_made_most_often(rt: HostRuntime) -> Result<(), Fail> {
    for (position, games, written) in BOOKS {
        expect_book(&rt, rt.alloc(), position, games, Done, written)?;
    }
    Ok(())
}

#[test]
fn a_turned_or_mirrored_game_counts(rt: HostRuntime) -> Result<(), Fail> {
    let alloc = rt.alloc();
    for game in TURNED {
        expect_book(&rt, alloc, CROOKED, &[game], Done, "book bA1 bG1- 1\n")?;
    }
    expect_book(&rt, alloc, CROOKED, &TURNED, Done, "book bA1 bG1- 12\n")?;
    Ok(())
}

/// A game in which the first piece of white has moved next to its other pieces.
const STANDING: &str =
    "Base;InProgress;Black[4];wA1;bG1 wA1-;wQ \\wA1;bA1 bG1\\;wQ \\bG1;bQ bA1-;wA1 \\wQ";

/// The same pieces around the grasshopper, which was put on another side of the first piece.
const SHIFTED: &str = concat!(
    "Base;InProgress;White[5];wA1;bG1 /wA1;wQ \\wA1;bA1 bG1\\;wQ \\bG1;bQ bA1-;wA1 \\wQ;",
    "bG2 bQ-",
);

#[test]
fn a_shifted_game_counts(rt: HostRuntime) -> Result<(), Fail> {
    let games = [SHIFTED].as_slice();
    expect_book(&rt, rt.alloc(), STANDING, games, Done, "book bG2 bQ- 1\n")?;
    Ok(())
}

/// The position is its own mirror image. So a move on either side counts for both, and once.
#[test]
fn a_mirrored_move_counts_once(rt: HostRuntime) -> Result<(), Fail> {
    let position = "Base;InProgress;White[2];wS1;bG1 wS1-";
    let games = [CROOKED].as_slice();
    expect_book(&rt, rt.alloc(), position, games, Done, "book wA1 /wS1 1\n")?;
    Ok(())
}

/// A position and games of which one line is no game, and the line that says so.
const BAD_LINES: [(&str, &[&str], &str); 5] = [
    ("", &[], "bad malformed part 1\n"),
    ("Base;NotStarted;White[2]", &[NO_GAME], "bad other turn\n"),
    (DRAWN, &[], "bad game over\n"),
    (SPIDER, &[FIRST, SECOND, THIRD, NO_GAME], "bad line 5\n"),
    (SPIDER, &[FIRST, "", NO_GAME], "bad line 3\n"),
];

#[test]
fn the_first_bad_line_is_named(rt: HostRuntime) -> Result<(), Fail> {
    for (position, games, written) in BAD_LINES {
        expect_book(&rt, rt.alloc(), position, games, BadInput, written)?;
    }
    let empty = MemSetting::of(b"".as_slice());
    expect_run(&rt, rt.alloc(), empty, BadInput, "bad no line\n")?;
    Ok(())
}

#[test]
fn a_line_that_is_too_long_is_named(rt: HostRuntime) -> Result<(), Fail> {
    let alloc = rt.alloc();
    let long = vec![in alloc; b'x'; 65_537]?;
    let mut input = Vec::from_slice(alloc, b"Base\nBase\n".as_slice())?;
    input.extend_from_slice(long.as_slice())?;
    for (input, written) in [
        (long.as_slice(), "bad line too long\n"),
        (input.as_slice(), "bad line 3\n"),
    ] {
        expect_run(&rt, alloc, MemSetting::of(input), BadInput, written)?;
    }
    Ok(())
}

#[test]
fn a_read_or_a_write_that_fails_ends_the_run(rt: HostRuntime) -> Result<(), Fail> {
    let input = input_of(rt.alloc(), &[SPIDER, DRAWN])?;
    let setting = MemSetting::of(input.as_slice()).cut(&[7]);
    for (failing, status, written) in [
        (setting.failing(6, 0), ReadFault, ""),
        (setting.failing(0, 2), WriteFault, "book bS"),
    ] {
        expect_run(&rt, rt.alloc(), failing, status, written)?;
    }
    Ok(())
}
