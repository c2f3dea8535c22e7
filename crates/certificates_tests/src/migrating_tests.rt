//! Certificates that are made into certificates that cite.

use crate::strategy_commands_tests::{Asked, expect_answer, expect_run};
use certificate_commands::{certify, migrate};
use command_runs::Status::{self, BadInput, Done, ReadFault, Refused, WriteFault};
use fast_game::FastGame;
use io_edge::{MemSink, MemSource};
use memory_sides::MemSetting;
use std::alloc::{AllocError, Global};
use std::test::Fail;

/// A certificate of the opening of the base game two plies deep, with its least indices.
const FIRST: &str = "hive-certificate 1\nBase\ndepth 2\nmove wA1\nvalue 10\n0\n0\n0\n0\n";

/// The citing certificate that is made of it.
const SECOND: &str =
    "hive-certificate 2\nBase;NotStarted;White[1]\ndepth 2\nmove wA1\nvalue 10\n0\n0\n0\n0\n";

/// A game in which two moves may be made in either order.
const BEGUN: &str = "Base;InProgress;White[2];wS1;bS1 wS1-\n";

/// What is written for this input: the certificate four plies deep if it is a game, otherwise the
/// citing certificate.
fn written_of(alloc: Global, is_game: bool, input: &[u8]) -> Result<Vec<u8>, AllocError> {
    let setting = MemSetting::of(input);
    let mut source = setting.source(alloc)?;
    let mut sink = setting.sink(alloc)?;
    if is_game {
        certify::<MemSource, MemSink, FastGame>(alloc, 4, &mut source, &mut sink);
    } else {
        migrate::<MemSource, MemSink, FastGame>(alloc, &mut source, &mut sink);
    }
    Vec::from_slice(alloc, sink.bytes())
}

#[test]
fn a_longer_certificate_cites(rt: HostRuntime) -> Result<(), Fail> {
    let alloc = rt.alloc();
    let certificate = written_of(alloc, true, BEGUN.as_bytes())?;
    let citing = written_of(alloc, false, certificate.as_slice())?;
    assert!(rt; citing.as_slice().contains(&b'@'));
    let setting = MemSetting::of(citing.as_slice());
    expect_run(&rt, alloc, Asked::Check, setting, Done, "accepted\n")?;
    Ok(())
}

#[test]
fn certificates_become_citing_ones(rt: HostRuntime) -> Result<(), Fail> {
    let alloc = rt.alloc();
    expect_answer(&rt, alloc, Asked::Migrate, FIRST, Done, SECOND)?;
    expect_answer(&rt, alloc, Asked::Check, SECOND, Done, "accepted\n")?;
    Ok(())
}

/// Texts that cannot be made into a citing certificate, and the answers to them.
const REFUSED: [(&str, Status, &str); 8] = [
    ("", BadInput, "bad line 1\n"),
    (SECOND, BadInput, "bad line 1\n"),
    (
        "hive-certificate 1\nbase\n",
        BadInput,
        "bad malformed part 1\n",
    ),
    (
        "hive-certificate 1\nBase\ndepth 2\nmove wA1\nvalue 10\n0\n@0\n0\n0\n",
        BadInput,
        "bad line 7\n",
    ),
    (
        "hive-certificate 1\nBase\ndepth 2\nmove wA1\nvalue 11\n0\n0\n0\n0\n",
        Refused,
        "refused leaf 3\n",
    ),
    (
        "hive-certificate 1\nBase\ndepth 2\nmove wA1\nvalue 10\n0\n0\n0\n",
        Refused,
        "refused short 3\n",
    ),
    (
        "hive-certificate 1\nBase\ndepth 2\nmove wQ\nvalue 10\n0\n0\n0\n0\n",
        Refused,
        "refused move 0\n",
    ),
    (
        "hive-certificate 1\nBase\ndepth 2\nmove queen\nvalue 10\n0\n0\n0\n0\n",
        Refused,
        "refused move 0\n",
    ),
];

#[test]
fn other_texts_are_named(rt: HostRuntime) -> Result<(), Fail> {
    for (input, status, written) in REFUSED {
        expect_answer(&rt, rt.alloc(), Asked::Migrate, input, status, written)?;
    }
    Ok(())
}

#[test]
fn a_failed_call_ends_a_migration(rt: HostRuntime) -> Result<(), Fail> {
    let setting = MemSetting::of(FIRST.as_bytes()).cut(&[7]);
    for (failing, status, written) in [
        (setting.failing(2, 0), ReadFault, ""),
        (setting.failing(0, 2), WriteFault, "hive-ce"),
    ] {
        expect_run(&rt, rt.alloc(), Asked::Migrate, failing, status, written)?;
    }
    Ok(())
}

#[test]
fn a_text_that_is_decided_is_read_no_further(rt: HostRuntime) -> Result<(), Fail> {
    for (input, status, written) in [
        REFUSED[1], REFUSED[2], REFUSED[3], REFUSED[4], REFUSED[6], REFUSED[7],
    ] {
        let setting = MemSetting::of(input.as_bytes()).failing(2, 0);
        expect_run(&rt, rt.alloc(), Asked::Migrate, setting, status, written)?;
    }
    let (missing, _, _) = REFUSED[5];
    let setting = MemSetting::of(missing.as_bytes()).failing(2, 0);
    expect_run(&rt, rt.alloc(), Asked::Migrate, setting, ReadFault, "")?;
    Ok(())
}
