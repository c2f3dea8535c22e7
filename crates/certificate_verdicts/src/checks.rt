//! The check of a text, whatever its form.

ghost use Rattle.std.specs.Prelude.{◌<◌, ℕ, List, Result, IfOk};
ghost use Rattle.io_edge.specs.Lines.{Line as AnyLine};
ghost use Rattle.certificate_text.specs.declared.head.HeadFault.{HeadFault as AnyFault};
ghost use Rattle.command_runs.specs.Runs.{RunsAs, side_of};
ghost use Rattle.certificate_verdicts.specs.Runs.{IsDecidedBehind, Judgement, VerdictRun};
ghost use Rattle.certificate_verdicts.specs.Judging.{JudgesAhead, JudgesInput, TakesHead, text_verdict};

use crate::told::tell_judged;
use crate::verdict::{TextVerdict, Unread, fault_verdict};
use certificate_text::HeadFault;
use command_runs::Status;
use hive_model::Game;
use io_edge::{Sink, Source};
use line_feed::LineReader;
use std::alloc::Global;

/// A form of texts: a head, which makes a claim, and after it lines that have to show that the
/// claim is true.
pub trait TextForm {
    /// The content of a head.
    type Head;

    /// The number of lines of a head.
    ghost head_lines: { ℕ };

    /// The head that the lines of a text give, or their first fault.
    ghost head_of: { List AnyLine → Result Self.Head AnyFault };

    /// What holds of every head that was read.
    ghost keeps: { Self.Head → Type 0 };

    /// The verdict on the lines after a head.
    ghost worth: { Self.Head → Judgement };

    /// The lines of the head alone never decide this verdict.
    ghost not_yet: { (head : Self.Head) (ls : List AnyLine) (n : ℕ) → n < head_lines
        → IsDecidedBehind head_lines (worth head ls) n };

    /// Reads the head, and plays its game on one of the kind G. No line after the first fault is
    /// read.
    ///
    /// # Errors
    ///
    /// The first fault of the lines, a failed read, a reader that takes no more, or out of memory.
    fn read_head<S: Source, G: Game + Drop>(
        &self,
        alloc: Global,
        reader: &mut LineReader,
        input: &mut S,
    ) -> Result<Self::Head, HeadFault>
        ensures takes { TakesHead head_lines head_of result reader.old reader.new
            (side_of S.rest S.read_faults input.old) (side_of S.rest S.read_faults input.new) }
        ensures keeps { IfOk result keeps };

    /// The verdict on the lines to come after a head.
    ///
    /// # Errors
    ///
    /// A failed read, a reader that takes no more, or out of memory.
    fn judge_claim<S: Source, G: Game + Drop>(
        &self,
        alloc: Global,
        head: Self::Head,
        reader: &mut LineReader,
        input: &mut S,
    ) -> Result<TextVerdict, Unread>
        requires { keeps head }
        ensures { JudgesAhead head_lines (worth head) head_lines result reader.old
            (side_of S.rest S.read_faults input.old) (side_of S.rest S.read_faults input.new) };
}

/// The verdict on the lines to come.
fn judge_lines<F: TextForm, S: Source, G: Game + Drop>(
    alloc: Global,
    form: &F,
    reader: &mut LineReader,
    input: &mut S,
) -> Result<TextVerdict, Unread>
    ensures { JudgesAhead F.head_lines (text_verdict F.head_lines F.head_of F.worth) 0 result
        reader.old
        (side_of S.rest S.read_faults input.old) (side_of S.rest S.read_faults input.new) }
{
    match form.read_head::<S, G>(alloc, reader, input) {
        Ok(head) => form.judge_claim::<S, G>(alloc, head, reader, input),
        Err(fault) => fault_verdict(fault),
    }
}

/// The verdict on the input.
fn judge<F: TextForm, S: Source, G: Game + Drop>(
    alloc: Global,
    form: &F,
    input: &mut S,
) -> Result<TextVerdict, Unread>
    ensures { JudgesInput F.head_lines (text_verdict F.head_lines F.head_of F.worth) result
        (side_of S.rest S.read_faults input.old) (side_of S.rest S.read_faults input.new) }
{
    let Ok(mut reader) = LineReader::new(alloc) else {
        return Err(Unread::Memory);
    };
    judge_lines::<F, S, G>(alloc, form, &mut reader, input)
}

/// Checks the input, which has to be a text of this form, and writes the line of the verdict, as
/// `tell_judged` does.
pub fn check_text<F: TextForm, S: Source, K: Sink, G: Game + Drop>(
    alloc: Global,
    form: &F,
    input: &mut S,
    output: &mut K,
) -> Status
    ensures { RunsAs (VerdictRun F.head_lines (text_verdict F.head_lines F.head_of F.worth)) result
        (side_of S.rest S.read_faults input.old) (side_of K.written K.write_faults output.old)
        (side_of S.rest S.read_faults input.new) (side_of K.written K.write_faults output.new) }
{
    let judged = judge::<F, S, G>(alloc, form, input);
    tell_judged(alloc, judged, output)
}
