//! Starts, reads and writes that fail.

use super::{
    BLACK, DEPTH_ONE, ILLEGAL, TO_BLACK, TO_WHITE, WHITE, in_sevens, play_deep, play_with,
};
use crate::seen::{expect_cut, expect_seen, expect_sent};
use command_runs::Status;
use hive_model::Colour;
use io_edge::StepClock;
use memory_sides::{MemSetting, Played, links_of, spawner_of};
use std::alloc::{AllocError, Global};
use std::process::Abort;
use std::test::Fail;

/// Plays the match with a start of this number that fails, or a write of the output of this number.
fn play_failing(alloc: Global, start: u64, write: u64) -> Result<Played<Status>, AllocError> {
    let links = links_of(alloc, &[in_sevens(WHITE), in_sevens(BLACK)])?;
    let spawner = spawner_of(alloc, links, start)?;
    play_with(alloc, spawner, DEPTH_ONE, &mut StepClock::new(0, 1), write)
}

#[test]
fn a_program_does_not_start(rt: HostRuntime) -> Result<(), Fail> {
    let seen = play_failing(rt.alloc(), 1, 0)?;
    expect_seen(&rt, &seen, Status::SpawnFault, b"", 0);
    let seen = play_failing(rt.alloc(), 2, 0)?;
    expect_seen(&rt, &seen, Status::SpawnFault, b"", 1);
    expect_sent(&rt, &seen, &[b""]);
    Ok(())
}

#[test]
fn a_write_of_the_output_fails(rt: HostRuntime) -> Result<(), Fail> {
    for (write, bytes) in [(1, 0), (2, 7), (9, 56)] {
        let seen = play_failing(rt.alloc(), 0, write)?;
        expect_cut(&rt, &seen, ILLEGAL, bytes, 2);
    }
    Ok(())
}

/// Whether a text has the game of no move or of white's one, and says that this side broke.
fn tells_broke(text: &[u8], side: &[u8]) -> bool {
    let rest = if text.starts_with(b"Base;NotStarted;White[1]\n".as_slice()) {
        text.strip_prefix(b"Base;NotStarted;White[1]\n".as_slice())
    } else {
        text.strip_prefix(b"Base;InProgress;Black[1];wS1\n".as_slice())
    };
    match rest {
        Some(verdict) => verdict == side,
        None => false,
    }
}

/// Plays the match with a failure of this call of a side's link. The side breaks, and both sides
/// are sent an initial part of what they would be sent.
fn expect_broke<R: Abort>(
    rt: &R,
    alloc: Global,
    side: Colour,
    read: u64,
    write: u64,
) -> Result<(), AllocError> {
    let (white, black) = (
        MemSetting::of(WHITE).cut(&[4]),
        MemSetting::of(BLACK).cut(&[4]),
    );
    let (white, black, verdict) = match side {
        Colour::White => (
            white.failing(read, write),
            black,
            b"forfeit white broke\n".as_slice(),
        ),
        Colour::Black => (
            white,
            black.failing(read, write),
            b"forfeit black broke\n".as_slice(),
        ),
    };
    let seen = play_deep(alloc, white, black)?;
    assert_eq!(rt; seen.status, Status::Done);
    assert!(rt; tells_broke(seen.output.bytes(), verdict));
    assert_eq!(rt; seen.spawner.closed().len(), 2);
    assert!(rt; TO_WHITE.starts_with(seen.sent(0)));
    assert!(rt; TO_BLACK.starts_with(seen.sent(1)));
    Ok(())
}

/// White says its 25 bytes in seven pieces of at most four bytes.
const WHITE_READS: u64 = 7;

/// Black says its 29 bytes in eight pieces.
const BLACK_READS: u64 = 8;

/// Each side is sent lines of 13, 17 and 9 bytes, in such pieces by four, five and three writes.
const WRITES: u64 = 12;

/// Each of the reads of a side's link fails in turn.
fn each_read_fails<R: Abort>(
    rt: &R,
    alloc: Global,
    side: Colour,
    reads: u64,
) -> Result<(), AllocError> {
    for read in 1..=reads {
        expect_broke(rt, alloc, side, read, 0)?;
    }
    Ok(())
}

/// Each of the writes to a side's link fails in turn.
fn each_write_fails<R: Abort>(rt: &R, alloc: Global, side: Colour) -> Result<(), AllocError> {
    for write in 1..=WRITES {
        expect_broke(rt, alloc, side, 0, write)?;
    }
    Ok(())
}

#[test]
fn a_link_fails(rt: HostRuntime) -> Result<(), Fail> {
    each_read_fails(&rt, rt.alloc(), Colour::White, WHITE_READS)?;
    each_write_fails(&rt, rt.alloc(), Colour::White)?;
    each_read_fails(&rt, rt.alloc(), Colour::Black, BLACK_READS)?;
    each_write_fails(&rt, rt.alloc(), Colour::Black)?;
    Ok(())
}

#[test]
fn a_link_has_no_more_calls(rt: HostRuntime) -> Result<(), Fail> {
    let white = MemSetting::of(WHITE)
        .cut(&[4])
        .failing(WHITE_READS + 1, WRITES + 1);
    let black = MemSetting::of(BLACK)
        .cut(&[4])
        .failing(BLACK_READS + 1, WRITES + 1);
    let seen = play_deep(rt.alloc(), white, black)?;
    expect_seen(&rt, &seen, Status::Done, ILLEGAL, 2);
    expect_sent(&rt, &seen, &[TO_WHITE, TO_BLACK]);
    Ok(())
}
