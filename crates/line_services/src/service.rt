//! A service over a source and a sink. It writes the reply to each line before it reads the next
//! line.
ghost use Rattle.std.specs.Prelude.{◌≡◌, Bool, false, Some};
ghost use Rattle.std.specs.Thread.{IsSync};
ghost use Rattle.io_edge.specs.Outside.{HasCause};
ghost use Rattle.io_edge.specs.Starts.{Engines};
ghost use Rattle.command_runs.specs.World.{sides, times, world};
ghost use Rattle.uhp_session.specs.Answers.{line_in, IsShort};
ghost use Rattle.uhp_session.specs.Searches.{Answered};
ghost use Rattle.line_services.specs.Rounds.{Answers, Rounds, service_state, status_of};
ghost use Rattle.line_services.specs.Service.{Service};
ghost use Rattle.line_services.specs.ServiceRun.{ServiceRun};
ghost use Rattle.line_services.specs.Times.{IsStill};

use command_runs::Status;
use hive_model::TimedList;
use io_edge::{Clock, Sink, Source, write_all};
use line_feed::{LineAnswer, LineReader};
use std::alloc::{AllocError, Global};
use std::thread::Threads;
use uhp_session::{LineIn, Reply};

/// A command that answers the lines of its input, one after another.
pub(crate) trait LineService {
    /// What the service answers, and its next state.
    ghost service: { Service Self };

    /// Whether it may read the clock and append entries.
    ghost takes_time: { Bool };

    /// What is written before the first line is read.
    fn preface(&self) -> &'static [u8]
        ensures { result.now ≡ service.preface };

    /// Answers a line. `Exit` ends the run.
    ///
    /// If the line asks for a timed search, one entry that describes it is appended, and the reply
    /// is the one for the entry's depth. If it asks for none, the clock is not read. If memory runs
    /// out, the state is as before and no entry is appended.
    fn answer<R: Threads + Sync, C: Clock>(
        &mut self,
        rt: &R,
        alloc: Global,
        line: LineIn<'_>,
        clock: &mut C,
        timed: &mut TimedList,
    ) -> Result<Reply, AllocError>
        requires sync { IsSync R.row }
        requires short { IsShort (line_in line) }
        ensures answered { Answered (service.asks self.old (line_in line.entry))
            (service.reply self.old (line_in line.entry))
            (service.next self.old (line_in line.entry)) result self.old self.new
            (times (C.last clock.old) (C.readings clock.old) timed.old)
            (times (C.last clock.new) (C.readings clock.new) timed.new) }
        ensures still { IsStill (takes_time ≡ false) clock.old clock.new timed.old timed.new };

    /// Whether a line was refused so far, so that the run ends as `Refused`.
    fn has_refused(&self) -> bool
        ensures { result ≡ service.has_refused self.now };
}

/// Why a service reads no further line.
#[derive(Clone, Copy)]
pub(crate) enum Stop {
    /// The input has ended, or a line has ended the run.
    Over,
    /// A read of the input failed.
    ReadFailed,
    /// The input has 1,099,511,627,776 bytes or more before its end.
    Full,
    /// A write of the output failed.
    WriteFailed,
    /// There was not enough memory.
    NoMemory,
}

impl Stop {
    /// The status of a run that stops for this reason, by whether a line was refused.
    pub(crate) fn status(self, refused: bool) -> Status
        ensures { result ≡ status_of refused self }
    {
        match self {
            Stop::Over => {
                if refused {
                    Status::Refused
                } else {
                    Status::Done
                }
            }
            Stop::ReadFailed => Status::ReadFault,
            Stop::Full => Status::InputFull,
            Stop::WriteFailed => Status::WriteFault,
            Stop::NoMemory => Status::Memory,
        }
    }
}

/// Answers a line and writes the reply, or says why the run stops.
fn write_reply<R: Threads + Sync, K: Sink, C: Clock, V: LineService>(
    rt: &R,
    alloc: Global,
    service: &mut V,
    line: LineIn<'_>,
    output: &mut K,
    clock: &mut C,
    timed: &mut TimedList,
) -> Option<Stop>
    requires { IsShort (line_in line) }
    ensures answers { Answers V.service result (line_in line.entry) service.old service.new
        (K.written output.old) (K.written output.new)
        (times (C.last clock.old) (C.readings clock.old) timed.old)
        (times (C.last clock.new) (C.readings clock.new) timed.new) }
    ensures cause { HasCause (result ≡ Some Stop.WriteFailed) (K.write_faults output.old)
        (K.write_faults output.new) }
    ensures still { IsStill (V.takes_time ≡ false) clock.old clock.new timed.old timed.new }
{
    match service.answer(rt, alloc, line, clock, timed) {
        Ok(Reply::Text(text)) => {
            if write_all(output, text.items()) {
                None
            } else {
                Some(Stop::WriteFailed)
            }
        }
        Ok(Reply::Exit) => Some(Stop::Over),
        Err(_) => Some(Stop::NoMemory),
    }
}

/// Reads a line, answers it and writes the reply, or says why the run stops.
fn serve_line<R: Threads + Sync, S: Source, K: Sink, C: Clock, V: LineService>(
    rt: &R,
    alloc: Global,
    service: &mut V,
    reader: &mut LineReader,
    input: &mut S,
    output: &mut K,
    clock: &mut C,
    timed: &mut TimedList,
) -> Option<Stop>
    ensures round { Rounds V.service result
        (service_state service.old reader.old (sides (S.rest input.old) (K.written output.old))
        (times (C.last clock.old) (C.readings clock.old) timed.old))
        (service_state service.new reader.new (sides (S.rest input.new) (K.written output.new))
        (times (C.last clock.new) (C.readings clock.new) timed.new)) }
    ensures reads { HasCause (result ≡ Some Stop.ReadFailed) (S.read_faults input.old)
        (S.read_faults input.new) }
    ensures writes { HasCause (result ≡ Some Stop.WriteFailed) (K.write_faults output.old)
        (K.write_faults output.new) }
    ensures still { IsStill (V.takes_time ≡ false) clock.old clock.new timed.old timed.new }
{
    let line = match reader.next_line(input) {
        LineAnswer::Line => LineIn::Text(reader.line()),
        LineAnswer::TooLong => LineIn::TooLong,
        LineAnswer::End => return Some(Stop::Over),
        LineAnswer::Failed => return Some(Stop::ReadFailed),
        LineAnswer::Full => return Some(Stop::Full),
    };
    write_reply(rt, alloc, service, line, output, clock, timed)
}

/// Runs a service. It writes its preface, and then the reply to each line before it reads the next
/// one. The run ends at a line that ends it, or at the end of the input.
pub(crate) fn serve<R: Threads + Sync, S: Source, K: Sink, C: Clock, V: LineService>(
    rt: &R,
    alloc: Global,
    service: &mut V,
    input: &mut S,
    output: &mut K,
    clock: &mut C,
    timed: &mut TimedList,
) -> Status
    requires { service.old ≡ V.service.begins }
    ensures run { (engines : Engines) → ServiceRun V.service result
        (world (sides (S.rest input.old) (K.written output.old))
        (times (C.last clock.old) (C.readings clock.old) timed.old) engines)
        (world (sides (S.rest input.new) (K.written output.new))
        (times (C.last clock.new) (C.readings clock.new) timed.new) engines) }
    ensures reads { HasCause (result ≡ Status.ReadFault) (S.read_faults input.old)
        (S.read_faults input.new) }
    ensures writes { HasCause (result ≡ Status.WriteFault) (K.write_faults output.old)
        (K.write_faults output.new) }
    ensures still { IsStill (V.takes_time ≡ false) clock.old clock.new timed.old timed.new }
{
    let Ok(mut reader) = LineReader::new(alloc) else {
        return Status::Memory;
    };
    if !write_all(output, service.preface()) {
        return Status::WriteFault;
    }
    'lines: loop {
        if let Some(stop) = serve_line(
            rt,
            alloc,
            service,
            &mut reader,
            input,
            output,
            clock,
            timed,
        ) {
            return stop.status(service.has_refused());
        }
    }
}
