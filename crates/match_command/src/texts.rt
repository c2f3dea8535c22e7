//! The two lines that report a match.
ghost use Rattle.std.specs.Prelude.{◌≡◌, ◌++◌, decimal, map, OnOk, IfOk};
ghost use Rattle.match_command.specs.Texts.{
  shown,
  kept_text,
  late_text,
  cause_text,
  side_text,
  verdict_text,
  ending_text,
  match_text,
};

use game_text::write_game_under;
use hive_model::{Colour, Game, ReplyText};
use itoa::Buffer;
use match_core::{Cause, Referee, Setup, Verdict};
use move_text::state_text;
use std::alloc::{AllocError, Global};

/// A byte of an engine's line as it is written.
fn shown(byte: u8) -> u8
    ensures { result ≡ shown byte }
{
    if byte < 32 || byte > 126 { b'?' } else { byte }
}

/// Appends the bytes of a line as they are written: each one outside 32 to 126 as a question mark.
pub fn write_shown(out: &mut ReplyText, bytes: &[u8]) -> Result<(), AllocError>
    ensures { OnOk result (out.new ≡ out.old ++ map shown bytes.now) }
{
    for byte in bytes {
        out.push(shown(*byte))?;
    }
    Ok(())
}

/// Appends a word, and then the kept line if it is not empty.
fn write_kept(out: &mut ReplyText, word: &[u8], line: &[u8]) -> Result<(), AllocError>
    ensures { OnOk result (out.new ≡ out.old ++ (word.now ++ kept_text line.now)) }
{
    out.push_all(word)?;
    if line.is_empty() {
        return Ok(());
    }
    out.push(b' ')?;
    write_shown(out, line)
}

/// Appends a number.
pub fn write_number(out: &mut ReplyText, number: u64) -> Result<(), AllocError>
    ensures { OnOk result (out.new ≡ out.old ++ decimal number) }
{
    let mut buffer = Buffer::new();
    out.push_all(buffer.format(number).as_bytes())
}

/// Appends the two readings of the clock that show that an answer was late.
fn write_late(out: &mut ReplyText, asked: u64, answered: u64) -> Result<(), AllocError>
    ensures { OnOk result (out.new ≡ out.old ++ late_text asked answered) }
{
    out.push_all(b"late ")?;
    write_number(out, asked)?;
    out.push(b' ')?;
    write_number(out, answered)
}

/// Appends why a side forfeits.
fn write_cause(out: &mut ReplyText, cause: &Cause) -> Result<(), AllocError>
    ensures { OnOk result (out.new ≡ out.old ++ cause_text cause.now) }
{
    match cause {
        Cause::NotAMove { line } => write_kept(out, b"notamove", line.items()),
        Cause::Illegal { line } => write_kept(out, b"illegal", line.items()),
        Cause::ErrLine { line } => write_kept(out, b"err", line.items()),
        Cause::Flood { lines } => {
            out.push_all(b"flood ")?;
            write_number(out, u64::from(*lines))
        }
        Cause::LongLine => out.push_all(b"longline"),
        Cause::Ended => out.push_all(b"ended"),
        Cause::Broke => out.push_all(b"broke"),
        Cause::Late { asked, answered } => write_late(out, *asked, *answered),
    }
}

/// Appends the name of a side.
fn write_side(out: &mut ReplyText, side: Colour) -> Result<(), AllocError>
    ensures { OnOk result (out.new ≡ out.old ++ side_text side) }
{
    match side {
        Colour::White => out.push_all(b"white"),
        Colour::Black => out.push_all(b"black"),
    }
}

/// Appends how a match ended.
fn write_verdict(out: &mut ReplyText, setup: Setup, verdict: &Verdict) -> Result<(), AllocError>
    ensures { OnOk result (out.new ≡ out.old ++ verdict_text setup verdict.now) }
{
    match verdict {
        Verdict::Rules { state } => {
            out.push_all(b"result ")?;
            out.push_all(state_text(*state).as_bytes())
        }
        Verdict::Limit => {
            out.push_all(b"limit ")?;
            write_number(out, u64::from(setup.limit))
        }
        Verdict::Forfeit { side, cause } => {
            out.push_all(b"forfeit ")?;
            write_side(out, *side)?;
            out.push(b' ')?;
            write_cause(out, cause)
        }
    }
}

/// Appends the verdict of a match, if it has one.
pub fn write_ending<G: Game + Drop>(
    out: &mut ReplyText,
    setup: Setup,
    referee: &Referee<G>,
) -> Result<(), AllocError>
    ensures { OnOk result (out.new ≡ out.old ++ ending_text setup referee.now.verdict) }
{
    match referee.verdict() {
        Some(verdict) => write_verdict(out, setup, verdict),
        None => Ok(()),
    }
}

/// The two lines that report a match: the game string of the moves, and the verdict.
pub(crate) fn tell_match<G: Game + Drop>(
    alloc: Global,
    setup: Setup,
    referee: &Referee<G>,
) -> Result<ReplyText, AllocError>
    requires { referee.now.setup.game_type ≡ setup.game_type }
    ensures { IfOk result (λ text. text ≡ match_text setup referee.now) }
{
    let mut text = ReplyText::new(alloc);
    write_game_under(alloc, referee.game(), setup.repetition, &mut text)?;
    text.push(b'\n')?;
    write_ending(&mut text, setup, referee)?;
    text.push(b'\n')?;
    Ok(text)
}
