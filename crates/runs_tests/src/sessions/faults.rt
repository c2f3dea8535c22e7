//! Reads and writes that fail in the middle of a session.

use crate::sessions::{GREETING, expect_session, expect_uhp, greeted};
use hive_cli::Status;
use memory_sides::MemSetting;
use std::alloc::{AllocError, Global};
use std::test::Fail;

/// Lines, and the reply to each.
const TALK: [(&str, &str); 14] = [
    ("newgame", "Base;NotStarted;White[1]\nok\n"),
    ("validmoves", "wS1;wB1;wG1;wA1\nok\n"),
    ("newgame", "Base;NotStarted;White[1]\nok\n"),
    ("bestmove depth 1", "wS1\nok\n"),
    ("bestmove depth 2", "wA1\nok\n"),
    ("newgame", "Base;NotStarted;White[1]\nok\n"),
    ("play wS1", "Base;InProgress;Black[1];wS1\nok\n"),
    ("bestmove depth 1", "bS1 -wS1\nok\n"),
    (
        "play bA1 wS1-",
        "Base;InProgress;White[2];wS1;bA1 wS1-\nok\n",
    ),
    ("play wQ bQ-", "invalidmove 2 not in play bQ\nok\n"),
    ("undo", "Base;InProgress;Black[1];wS1\nok\n"),
    ("undo 3", "err 7 undo beyond start\nok\n"),
    ("options set Workers 2", "Workers;int;2;1;1;16\nok\n"),
    ("help", "err 1 unknown command\nok\n"),
];

/// The lines, each ended by an LF.
fn talk_lines(alloc: Global) -> Result<Vec<u8>, AllocError> {
    let mut lines = Vec::new(alloc);
    for (line, _) in TALK {
        lines.extend_from_slice(line.as_bytes())?;
        lines.push(b'\n')?;
    }
    Ok(lines)
}

/// What is written if this number of bytes of the lines was read: the greeting, and the reply to
/// each line with its LF among them.
fn written_for(alloc: Global, read: usize) -> Result<Vec<u8>, AllocError> {
    let mut written = Vec::from_slice(alloc, GREETING.as_bytes())?;
    let mut end: usize = 0;
    for (line, reply) in TALK {
        end = end.saturating_add(line.len()).saturating_add(1);
        if end <= read {
            written.extend_from_slice(reply.as_bytes())?;
        }
    }
    Ok(written)
}

/// The sizes of all writes, if each takes at most this number of bytes. The greeting and each reply
/// begin a new write.
fn write_sizes(alloc: Global, piece: usize) -> Result<Vec<usize>, AllocError> {
    let mut sizes = Vec::new(alloc);
    add_sizes(&mut sizes, GREETING.len(), piece)?;
    for (_, reply) in TALK {
        add_sizes(&mut sizes, reply.len(), piece)?;
    }
    Ok(sizes)
}

/// Adds the sizes of the writes of one text.
fn add_sizes(sizes: &mut Vec<usize>, length: usize, piece: usize) -> Result<(), AllocError> {
    for start in (0..length).step_by(piece.max(1)) {
        sizes.push(piece.min(length - start))?;
    }
    Ok(())
}

#[test]
fn each_read_fails_in_turn(rt: HostRuntime) -> Result<(), Fail> {
    let alloc = rt.alloc();
    let lines = talk_lines(alloc)?;
    for piece in [1, 7] {
        let sizes = [piece];
        let setting = MemSetting::of(lines.as_slice()).cut(&sizes);
        // one read for each piece, and one that finds the end
        let reads = lines.len().div_ceil(piece) + 1;
        for number in 1..=reads {
            let read = lines.len().min((number - 1) * piece);
            let written = written_for(alloc, read)?;
            let failing = setting.failing(number as u64, 0);
            expect_uhp(&rt, alloc, failing, Status::ReadFault, written.as_slice())?;
        }
    }
    Ok(())
}

#[test]
fn each_write_fails_in_turn(rt: HostRuntime) -> Result<(), Fail> {
    let alloc = rt.alloc();
    let lines = talk_lines(alloc)?;
    let all = written_for(alloc, lines.len())?;
    for piece in [1, 7] {
        let sizes = [piece];
        let setting = MemSetting::of(lines.as_slice()).cut(&sizes);
        let mut taken: usize = 0;
        let mut number: u64 = 0;
        for size in write_sizes(alloc, piece)? {
            number = number.saturating_add(1);
            let failing = setting.failing(0, number);
            let front = &all[..taken.min(all.len())];
            expect_uhp(&rt, alloc, failing, Status::WriteFault, front)?;
            taken = taken.saturating_add(size);
        }
        assert_eq!(rt; taken, all.len());
    }
    Ok(())
}

#[test]
fn a_fault_past_the_last_call_changes_nothing(rt: HostRuntime) -> Result<(), Fail> {
    let alloc = rt.alloc();
    let lines = talk_lines(alloc)?;
    let all = written_for(alloc, lines.len())?;
    for piece in [1, 7] {
        let sizes = [piece];
        let setting = MemSetting::of(lines.as_slice()).cut(&sizes);
        let reads = lines.len().div_ceil(piece) + 1;
        let writes = write_sizes(alloc, piece)?.len();
        for past in 1..=3usize {
            let read = reads.saturating_add(past) as u64;
            let write = writes.saturating_add(past) as u64;
            for failing in [setting.failing(read, 0), setting.failing(0, write)] {
                expect_uhp(&rt, alloc, failing, Status::Done, all.as_slice())?;
            }
        }
    }
    Ok(())
}

#[test]
fn a_fault_past_exit_changes_nothing(rt: HostRuntime) -> Result<(), Fail> {
    let written = greeted(rt.alloc(), &["Base;NotStarted;White[1]\nok\n"])?;
    let setting = MemSetting::of(b"newgame\nexit\nvalidmoves\n");
    // one read gives both lines, and another one finds `exit` alone
    for failing in [setting.failing(2, 3), setting.cut(&[8, 5]).failing(3, 100)] {
        expect_uhp(&rt, rt.alloc(), failing, Status::Done, written.as_bytes())?;
    }
    Ok(())
}

#[test]
fn a_read_fails_after_a_line(rt: HostRuntime) -> Result<(), Fail> {
    let alloc = rt.alloc();
    let failing = MemSetting::of(b"newgame\n").cut(&[8]).failing(2, 0);
    let written = greeted(alloc, &["Base;NotStarted;White[1]\nok\n"])?;
    expect_uhp(&rt, alloc, failing, Status::ReadFault, written.as_bytes())?;
    Ok(())
}

#[test]
fn what_follows_exit_is_not_answered(rt: HostRuntime) -> Result<(), Fail> {
    let lines = ["newgame\nexit\nvalidmoves\n"];
    expect_session(&rt, rt.alloc(), &lines, &["Base;NotStarted;White[1]\nok\n"])?;
    Ok(())
}

#[test]
fn a_line_may_be_too_long(rt: HostRuntime) -> Result<(), Fail> {
    let alloc = rt.alloc();
    let line = vec![in alloc; b'a'; 65537]?;
    let written = greeted(alloc, &["err 10 line too long\nok\n"])?;
    let setting = MemSetting::of(line.as_slice());
    expect_uhp(&rt, alloc, setting, Status::Done, written.as_bytes())?;
    Ok(())
}
