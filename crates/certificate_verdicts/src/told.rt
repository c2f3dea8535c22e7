//! The line that reports a verdict.

ghost use Rattle.std.specs.Prelude.{◌≡◌, Err, IfOk};
ghost use Rattle.io_edge.specs.Outside.{HasCause};
ghost use Rattle.certificate_verdicts.specs.Verdicts.{status_of, verdict_line, why_word};
ghost use Rattle.certificate_verdicts.specs.Reading.{TellsJudged, TellsVerdict};

use crate::verdict::{TextVerdict, Unread};
use command_runs::{Status, line_for, numbered, reason_of};
use hive_model::ReplyText;
use io_edge::{Sink, write_all};
use std::alloc::{AllocError, Global};
use strategy_check::Why;

/// The word for the reason to refuse a text.
fn why_word(why: Why) -> &'static str
    ensures { result.now ≡ why_word why }
{
    match why {
        Why::NoSuchMove => "move ",
        Why::BadIndex => "index ",
        Why::LeafFails => "leaf ",
        Why::TooShort => "short ",
        Why::Rest => "rest ",
    }
}

/// The line that reports a verdict, with its LF.
fn verdict_line(alloc: Global, verdict: &TextVerdict) -> Result<ReplyText, AllocError>
    ensures { IfOk result (λ t. t ≡ verdict_line verdict.now) }
{
    match *verdict {
        TextVerdict::Accepted => line_for(alloc, b"accepted", b""),
        TextVerdict::Refused { place, why } => {
            let text = numbered(alloc, why_word(why).as_bytes(), place)?;
            line_for(alloc, b"refused ", text.items())
        }
        TextVerdict::BadCite { place } => {
            let text = numbered(alloc, b"cite ", place)?;
            line_for(alloc, b"refused ", text.items())
        }
        TextVerdict::BadLine { line } => {
            let text = numbered(alloc, b"line ", line)?;
            line_for(alloc, b"bad ", text.items())
        }
        TextVerdict::BadGame { fault } => {
            let text = reason_of(alloc, fault)?;
            line_for(alloc, b"bad ", text.items())
        }
        TextVerdict::GameOver => line_for(alloc, b"bad ", b"game over"),
    }
}

/// The status with which a check ends.
fn status_of(verdict: &TextVerdict) -> Status
    ensures { result ≡ status_of verdict.now }
{
    match *verdict {
        TextVerdict::Accepted => Status::Done,
        TextVerdict::Refused { .. } | TextVerdict::BadCite { .. } => Status::Refused,
        TextVerdict::BadLine { .. } | TextVerdict::BadGame { .. } | TextVerdict::GameOver =>
            Status::BadInput,
    }
}

/// Writes the line of a verdict.
fn tell_verdict<K: Sink>(alloc: Global, verdict: &TextVerdict, output: &mut K) -> Status
    ensures told { TellsVerdict verdict.now result (K.written output.old) (K.written output.new) }
    ensures cause { HasCause (result ≡ Status.WriteFault)
        (K.write_faults output.old) (K.write_faults output.new) }
{
    let Ok(line) = verdict_line(alloc, verdict) else {
        return Status::Memory;
    };
    if write_all(output, line.items()) {
        status_of(verdict)
    } else {
        Status::WriteFault
    }
}

/// Writes the line of a verdict, with its LF: `accepted`; `refused`, a word and a number; or `bad`
/// and the reason. If the text could not be read, it writes nothing. The status says which case it
/// was, or that a write failed.
pub fn tell_judged<K: Sink>(
    alloc: Global,
    judged: Result<TextVerdict, Unread>,
    output: &mut K,
) -> Status
    ensures told { TellsJudged judged result (K.written output.old) (K.written output.new) }
    ensures cause { HasCause (result ≡ Status.WriteFault)
        (K.write_faults output.old) (K.write_faults output.new) }
{
    match judged {
        Ok(verdict) => tell_verdict(alloc, &verdict, output),
        Err(Unread::ReadFault) => Status::ReadFault,
        Err(Unread::InputFull) => Status::InputFull,
        Err(Unread::Memory) => Status::Memory,
    }
}
