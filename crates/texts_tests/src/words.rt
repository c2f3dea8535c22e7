//! Tests of `uhp_words`: lines with odd spaces, lines that are refused, and the lines of a reply.

use hive_model::ReplyText;
use std::alloc::AllocError;
use std::process::Abort;
use uhp_words::{Command, CommandFault, Span, part, read_command, write_reply};

fn expect<R: Abort>(rt: &R, line: &[u8], command: Command) {
    assert!(rt; line.len() <= 65_536);
    assert_eq!(rt; read_command(line), Ok(command));
}

fn expect_fault<R: Abort>(rt: &R, line: &[u8], fault: CommandFault) {
    assert!(rt; line.len() <= 65_536);
    assert_eq!(rt; read_command(line), Err(fault));
}

fn span(at: u32, len: u32) -> Span {
    Span { at, len }
}

#[test]
fn plain_commands(rt: HostRuntime) {
    expect(&rt, b"info", Command::Info);
    expect(&rt, b"  pass ", Command::Pass);
    expect(&rt, b"validmoves  ", Command::ValidMoves);
    expect(&rt, b" exit", Command::Exit);
    expect(&rt, b"options ", Command::Options);
    expect(&rt, b"undo ", Command::Undo { plies: 1 });
    expect(
        &rt,
        b"undo   999999999",
        Command::Undo { plies: 999_999_999 },
    );
    expect(
        &rt,
        b"bestmove  depth   64 ",
        Command::BestDepth { depth: 64 },
    );
    expect(
        &rt,
        b"bestmove time 00:01:05",
        Command::BestTime { budget: 65_000 },
    );
}

#[test]
fn parts_of_lines(rt: HostRuntime) {
    expect(&rt, b" newgame ", Command::NewGame { text: span(8, 0) });
    expect(
        &rt,
        b"newgame  Base+MLP",
        Command::NewGame { text: span(9, 8) },
    );
    expect(&rt, b"play play", Command::Play { text: span(5, 4) });
    expect(
        &rt,
        b" play  bG1  -wS1 ",
        Command::Play { text: span(7, 9) },
    );
    expect(
        &rt,
        b"options  get  Table ",
        Command::OptionGet { name: span(14, 5) },
    );
    let set = Command::OptionSet {
        name: span(14, 7),
        value: span(23, 2),
    };
    expect(&rt, b" options  set Workers  16 ", set);
}

#[test]
fn refused_lines(rt: HostRuntime) {
    expect_fault(&rt, b"", CommandFault::Unknown);
    expect_fault(&rt, b"   ", CommandFault::Unknown);
    expect_fault(&rt, b"help", CommandFault::Unknown);
    expect_fault(&rt, b"Newgame", CommandFault::Unknown);
    expect_fault(&rt, b"info x", CommandFault::Arguments);
    expect_fault(&rt, b"play ", CommandFault::Arguments);
    expect_fault(&rt, b"undo 0", CommandFault::Arguments);
    expect_fault(&rt, b"undo 1000000000", CommandFault::Arguments);
}

#[test]
fn refused_words(rt: HostRuntime) {
    expect_fault(&rt, b"bestmove", CommandFault::Arguments);
    expect_fault(&rt, b"bestmove depth 65", CommandFault::Arguments);
    expect_fault(&rt, b"bestmove depth 0", CommandFault::Arguments);
    expect_fault(&rt, b"bestmove depth 01", CommandFault::Arguments);
    expect_fault(&rt, b"bestmove time 1:00:00", CommandFault::Arguments);
    expect_fault(&rt, b"options get", CommandFault::Arguments);
    expect_fault(&rt, b"options set Workers", CommandFault::Arguments);
    expect_fault(&rt, b"options set Workers 2 3", CommandFault::Arguments);
}

#[test]
fn reply_lines(rt: HostRuntime) -> Result<(), AllocError> {
    let mut text = ReplyText::new(rt.alloc());
    write_reply(&mut text, b"wQ")?;
    write_reply(&mut text, b"ok")?;
    assert_eq!(rt; text.items(), b"wQ\nok\n".as_slice());
    assert_eq!(rt; part(b"play wQ", Span { at: 5, len: 2 }), b"wQ".as_slice());
    Ok(())
}
