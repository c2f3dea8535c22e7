//! Certificates that are written, and texts that are checked.

use certificate_commands::{certify, check, migrate};
use command_runs::Status::{self, BadInput, Done, ReadFault, Refused, WriteFault};
use fast_game::FastGame;
use io_edge::{MemSink, MemSource};
use memory_sides::{CUTS, MemSetting};
use std::alloc::{AllocError, Global};
use std::process::Abort;
use std::test::Fail;

/// The certificate of the opening of the base game, one ply deep.
const ONE_PLY: &str = "hive-certificate 1\nBase;NotStarted;White[1]\ndepth 1\nmove wS1\nvalue 0\n";

/// The same two plies deep, with its least indices.
const TWO_PLIES: &str =
    "hive-certificate 1\nBase;NotStarted;White[1]\ndepth 2\nmove wA1\nvalue 10\n0\n0\n0\n0\n";

/// A finished game.
const DRAWN: &str = concat!(
    "Base;Draw;Black[7];wS1;bS1 wS1-;wQ /wS1;bQ bS1-;wQ wS1\\;bQ bS1\\;wG1 -wQ;bG1 bS1-;",
    "wB1 wG1\\;bB1 bQ-;wA1 -wB1;bA1 bQ\\;wA1 wQ\\",
);

/// The command to run: a certificate one ply or two deep, a check, or a certificate that cites.
#[derive(Clone, Copy, Debug)]
pub(crate) enum Asked {
    OnePly,
    TwoPlies,
    Check,
    Migrate,
}

/// Runs a command over these two sides, and answers the status with which it ended.
fn ended(alloc: Global, asked: Asked, source: &mut MemSource, sink: &mut MemSink) -> Status {
    match asked {
        Asked::OnePly => certify::<MemSource, MemSink, FastGame>(alloc, 1, source, sink),
        Asked::TwoPlies => certify::<MemSource, MemSink, FastGame>(alloc, 2, source, sink),
        Asked::Check => check::<MemSource, MemSink, FastGame>(alloc, source, sink),
        Asked::Migrate => migrate::<MemSource, MemSink, FastGame>(alloc, source, sink),
    }
}

/// Runs a command in memory, and compares the status and everything written.
pub(crate) fn expect_run<R: Abort>(
    rt: &R,
    alloc: Global,
    asked: Asked,
    setting: MemSetting<'_>,
    status: Status,
    written: &str,
) -> Result<(), AllocError> {
    let mut source = setting.source(alloc)?;
    let mut sink = setting.sink(alloc)?;
    let ended = ended(alloc, asked, &mut source, &mut sink);
    assert_eq!(rt; ended, status, "{asked:?}, {setting}");
    assert_eq!(rt; sink.bytes(), written.as_bytes(), "{asked:?}, {setting}");
    Ok(())
}

/// Runs a command in which no call fails, in pieces of one byte, of seven bytes, and of any size.
pub(crate) fn expect_answer<R: Abort>(
    rt: &R,
    alloc: Global,
    asked: Asked,
    input: &str,
    status: Status,
    written: &str,
) -> Result<(), AllocError> {
    for pieces in CUTS {
        let setting = MemSetting::of(input.as_bytes()).cut(pieces);
        expect_run(rt, alloc, asked, setting, status, written)?;
    }
    Ok(())
}

#[test]
fn certificates_are_written(rt: HostRuntime) -> Result<(), Fail> {
    for (asked, written) in [(Asked::OnePly, ONE_PLY), (Asked::TwoPlies, TWO_PLIES)] {
        expect_answer(&rt, rt.alloc(), asked, "Base\n", Done, written)?;
    }
    Ok(())
}

/// Inputs for which no certificate is made, and the lines that say so.
const BAD_INPUTS: [(&str, &str); 4] = [
    ("", "bad no line\n"),
    ("Base;NotStarted;White[2]\n", "bad other turn\n"),
    (DRAWN, "bad game over\n"),
    ("Base\nBase\n", "bad more lines\n"),
];

#[test]
fn input_that_is_no_game_is_named(rt: HostRuntime) -> Result<(), Fail> {
    for (input, written) in BAD_INPUTS {
        expect_answer(&rt, rt.alloc(), Asked::TwoPlies, input, BadInput, written)?;
    }
    Ok(())
}

/// The move, the value and the other lines of texts about the opening of the base game two plies
/// deep. With each is what a check of it answers.
const CLAIMS: [(&str, &str, &str, Status, &str); 13] = [
    ("wA1", "10", "0\n0\n0\n0", Done, "accepted\n"),
    ("wA1", "10", "24\n0\n0\n0\n", Refused, "refused index 1\n"),
    ("wA1", "11", "0\n0\n0\n0\n", Refused, "refused leaf 3\n"),
    ("wA1", "10", "0\n0\n0\n", Refused, "refused short 3\n"),
    ("wA1", "10", "0\n0\n0\n0\n0\n", Refused, "refused rest 4\n"),
    (
        "wA1",
        "10",
        "0\n0\n0\n0\nrest\n",
        Refused,
        "refused rest 4\n",
    ),
    ("wB1", "8", "0\n0\n0\n0\n", Refused, "refused leaf 4\n"),
    ("wQ", "10", "0\n0\n0\n0\n", Refused, "refused move 0\n"),
    ("queen", "10", "0\n0\n0\n0\n", Refused, "refused move 0\n"),
    ("wA1", "10", "00\n0\n0\n0\n", BadInput, "bad line 6\n"),
    ("wA1", "10", "0\n0\n5488\n0\n", BadInput, "bad line 8\n"),
    ("", "10", "0\n0\n0\n0\n", BadInput, "bad line 4\n"),
    ("wA1", "-0", "0\n0\n0\n0\n", BadInput, "bad line 5\n"),
];

#[test]
fn claims_are_checked(rt: HostRuntime) -> Result<(), Fail> {
    let alloc = rt.alloc();
    for (best, value, rest, status, written) in CLAIMS {
        let head = "hive-certificate 1\nBase\ndepth 2\nmove ";
        let text = [head, best, "\nvalue ", value, "\n", rest].concat(alloc)?;
        expect_answer(&rt, alloc, Asked::Check, text.as_str(), status, written)?;
    }
    Ok(())
}

/// The tokens of texts that may cite, for the same claim, and what a check of each answers.
const TOKENS: [(&str, Status, &str); 8] = [
    ("0\n0\n0\n0\n", Done, "accepted\n"),
    ("@0\n0\n0\n0\n", Refused, "refused cite 1\n"),
    ("0\n@0\n0\n0\n", Refused, "refused cite 2\n"),
    ("24\n0\n0\n0\n", Refused, "refused index 1\n"),
    ("0\n0\n0\n", Refused, "refused short 3\n"),
    ("0\n0\n0\n0\n@0\n", Refused, "refused rest 4\n"),
    ("@65536\n0\n0\n0\n", BadInput, "bad line 6\n"),
    ("0\n@\n0\n0\n", BadInput, "bad line 7\n"),
];

#[test]
fn tokens_are_checked(rt: HostRuntime) -> Result<(), Fail> {
    let alloc = rt.alloc();
    for (rest, status, written) in TOKENS {
        let head = "hive-certificate 2\nBase\ndepth 2\nmove wA1\nvalue 10\n";
        let text = [head, rest].concat(alloc)?;
        expect_answer(&rt, alloc, Asked::Check, text.as_str(), status, written)?;
    }
    Ok(())
}

/// Heads that are cut or malformed, and the lines that say so.
const HEADS: [(&str, &str); 9] = [
    ("", "bad line 1\n"),
    ("hive-certificate 3\n", "bad line 1\n"),
    ("hive-certificate 0\n", "bad line 1\n"),
    ("hive-certificate 2\n", "bad line 2\n"),
    ("hive-solution 1\n", "bad line 1\n"),
    ("hive-certificate 1\n", "bad line 2\n"),
    ("hive-certificate 1\nbase\n", "bad malformed part 1\n"),
    (
        "hive-certificate 1\nBase\ndepth 0\nmove wA1\nvalue 10\n",
        "bad line 3\n",
    ),
    ("hive-certificate 1\nBase\ndepth 65\n", "bad line 3\n"),
];

#[test]
fn heads_are_checked_line_by_line(rt: HostRuntime) -> Result<(), Fail> {
    for (input, written) in HEADS {
        expect_answer(&rt, rt.alloc(), Asked::Check, input, BadInput, written)?;
    }
    Ok(())
}

/// Initial parts of the certificate, by their least and greatest number of bytes, and what a check
/// of each of them answers.
const FRONTS: [(usize, usize, Status, &str); 14] = [
    (0, 17, BadInput, "bad line 1\n"),
    (18, 19, BadInput, "bad line 2\n"),
    (20, 22, BadInput, "bad malformed part 1\n"),
    (23, 23, BadInput, "bad line 3\n"),
    (24, 33, BadInput, "bad malformed part 2\n"),
    (34, 42, BadInput, "bad malformed part 3\n"),
    (43, 50, BadInput, "bad line 3\n"),
    (51, 57, BadInput, "bad line 4\n"),
    (58, 67, BadInput, "bad line 5\n"),
    (68, 70, Refused, "refused short 0\n"),
    (71, 72, Refused, "refused short 1\n"),
    (73, 74, Refused, "refused short 2\n"),
    (75, 76, Refused, "refused short 3\n"),
    (77, 78, Done, "accepted\n"),
];

#[test]
fn each_front_of_a_certificate_is_checked(rt: HostRuntime) -> Result<(), Fail> {
    let alloc = rt.alloc();
    for (least, most, status, written) in FRONTS {
        for bytes in least..=most {
            let mut front = Vec::from_slice(alloc, TWO_PLIES.as_bytes())?;
            front.truncate(bytes);
            let setting = MemSetting::of(front.as_slice()).cut(&[7]);
            expect_run(&rt, alloc, Asked::Check, setting, status, written)?;
        }
    }
    Ok(())
}

#[test]
fn no_claim_is_about_a_finished_game(rt: HostRuntime) -> Result<(), Fail> {
    let alloc = rt.alloc();
    let parts = [
        "hive-certificate 1\n",
        DRAWN,
        "\ndepth 1\nmove wA1\nvalue 0\n",
    ];
    let text = parts.concat(alloc)?;
    let input = text.as_str();
    expect_answer(&rt, alloc, Asked::Check, input, BadInput, "bad game over\n")?;
    Ok(())
}

#[test]
fn a_failed_call_ends_a_run(rt: HostRuntime) -> Result<(), Fail> {
    for (asked, input, written) in [
        (Asked::TwoPlies, "Base\n", "hive-ce"),
        (Asked::Check, TWO_PLIES, "accepte"),
    ] {
        let setting = MemSetting::of(input.as_bytes());
        let read = setting.cut(&[1]).failing(2, 0);
        expect_run(&rt, rt.alloc(), asked, read, ReadFault, "")?;
        let write = setting.cut(&[7]).failing(0, 2);
        expect_run(&rt, rt.alloc(), asked, write, WriteFault, written)?;
    }
    Ok(())
}
