//! What black says, and the forfeit that results.

use super::{TO_BLACK, TO_WHITE, WHITE, play_deep};
use crate::seen::{expect_seen, expect_sent};
use command_runs::Status;
use memory_sides::MemSetting;
use std::alloc::{AllocError, Global};
use std::process::Abort;
use std::test::Fail;

/// Black greets, begins and is told of white's move.
const HEARD: &[u8] = b"id B\nok\nx\nok\nx\nok\n";

/// Black greets and begins.
const BEGUN: &[u8] = b"id B\nok\nx\nok\n";

const GAME: &[u8] = b"Base;InProgress;Black[1];wS1\n";

/// Plays the match with this text of black, and compares the verdict.
fn expect_verdict<R: Abort>(
    rt: &R,
    alloc: Global,
    black: MemSetting<'_>,
    verdict: &[u8],
) -> Result<(), AllocError> {
    let seen = play_deep(alloc, MemSetting::of(WHITE), black)?;
    let text = [GAME, verdict].concat(alloc)?;
    expect_seen(rt, &seen, Status::Done, text.as_slice(), 2);
    expect_sent(rt, &seen, &[TO_WHITE, TO_BLACK]);
    Ok(())
}

/// What black says after it is told of white's move, and the verdict.
const CAUSES: [(&[u8], &[u8]); 8] = [
    (b"", b"forfeit black ended\n"),
    (b"x\n", b"forfeit black ended\n"),
    (b"err no\n", b"forfeit black err err no\n"),
    (b"x\ninvalidmove\nok\n", b"forfeit black err invalidmove\n"),
    (b"ok\n", b"forfeit black notamove\n"),
    (b"bQ\nok\n", b"forfeit black notamove bQ\n"),
    (b"b\tQ \x7f~\xff\nok\n", b"forfeit black notamove b?Q ?~?\n"),
    (b"bQ -wS1\nok\n", b"forfeit black illegal bQ -wS1\n"),
];

#[test]
fn each_reply_has_its_cause(rt: HostRuntime) -> Result<(), Fail> {
    let alloc = rt.alloc();
    for (last, verdict) in CAUSES {
        let text = [HEARD, last].concat(alloc)?;
        expect_verdict(&rt, alloc, MemSetting::of(text.as_slice()), verdict)?;
    }
    let broken = MemSetting::of(HEARD).failing(2, 0);
    expect_verdict(&rt, alloc, broken, b"forfeit black broke\n".as_slice())?;
    Ok(())
}

#[test]
fn a_reply_has_a_thousand_lines_at_most(rt: HostRuntime) -> Result<(), Fail> {
    let alloc = rt.alloc();
    let flood = b"forfeit black flood 1001\n".as_slice();
    for (times, verdict) in [
        (1000, b"forfeit black notamove y\n".as_slice()),
        (1001, flood),
    ] {
        let lines = b"y\n".as_slice().repeat(alloc, times)?;
        let text = [HEARD, lines.as_slice(), b"ok\n"].concat(alloc)?;
        expect_verdict(&rt, alloc, MemSetting::of(text.as_slice()), verdict)?;
    }
    Ok(())
}

#[test]
fn a_line_is_not_too_long(rt: HostRuntime) -> Result<(), Fail> {
    let alloc = rt.alloc();
    let line = b"y".as_slice().repeat(alloc, 65537)?;
    let text = [HEARD, line.as_slice(), b"\nok\n"].concat(alloc)?;
    let verdict = b"forfeit black longline\n".as_slice();
    expect_verdict(&rt, alloc, MemSetting::of(text.as_slice()), verdict)?;
    Ok(())
}

/// Black's reply to `play`, of this number of lines, and then its illegal move.
fn told(alloc: Global, line: &[u8], times: usize) -> Result<Vec<u8>, AllocError> {
    let lines = line.repeat(alloc, times)?;
    [BEGUN, lines.as_slice(), b"ok\nbQ -wS1\nok\n"].concat(alloc)
}

#[test]
fn a_reply_to_a_move_is_not_looked_at(rt: HostRuntime) -> Result<(), Fail> {
    let alloc = rt.alloc();
    let illegal = b"forfeit black illegal bQ -wS1\n".as_slice();
    let text = told(alloc, b"Base;Draw;White[9];bA1\n".as_slice(), 1)?;
    expect_verdict(&rt, alloc, MemSetting::of(text.as_slice()), illegal)?;
    let text = told(alloc, b"y\n".as_slice(), 1000)?;
    expect_verdict(&rt, alloc, MemSetting::of(text.as_slice()), illegal)?;
    Ok(())
}

#[test]
fn a_reply_to_a_move_is_no_flood(rt: HostRuntime) -> Result<(), Fail> {
    let alloc = rt.alloc();
    let text = told(alloc, b"y\n".as_slice(), 1001)?;
    let black = MemSetting::of(text.as_slice());
    let seen = play_deep(alloc, MemSetting::of(WHITE), black)?;
    let told = [GAME, b"forfeit black flood 1001\n".as_slice()].concat(alloc)?;
    expect_seen(&rt, &seen, Status::Done, told.as_slice(), 2);
    assert_eq!(rt; seen.sent(1), b"newgame Base\nplay wS1\n".as_slice());
    Ok(())
}
