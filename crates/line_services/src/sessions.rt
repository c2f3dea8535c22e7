//! A session as a service: the greeting, and then the reply to each line.
ghost use Rattle.std.specs.Prelude.{◌≡◌, true};
ghost use Rattle.io_edge.specs.Outside.{HasCause};
ghost use Rattle.io_edge.specs.Starts.{Engines};
ghost use Rattle.command_runs.specs.World.{sides, times, world};
ghost use Rattle.line_services.specs.Session.{SessionRun, session};

use crate::service::{LineService, serve};
use command_runs::Status;
use fast_game::FastGame;
use hive_model::TimedList;
use io_edge::{Clock, Sink, Source};
use root_share::FreeGate;
use std::alloc::{AllocError, Global};
use std::thread::Threads;
use uhp_session::{LineIn, Reply, Session};

/// What is written before the first line is read.
const GREETING: &[u8] = b"id HiveReferee 1.0\nMosquito;Ladybug;Pillbug\nok\n";

impl LineService for Session<FastGame> {
    ghost service = { session };

    ghost takes_time = { true };

    fn preface(&self) -> &'static [u8] {
        GREETING
    }

    fn answer<R: Threads + Sync, C: Clock>(
        &mut self,
        rt: &R,
        alloc: Global,
        line: LineIn<'_>,
        clock: &mut C,
        timed: &mut TimedList,
    ) -> Result<Reply, AllocError> {
        self.command(rt, alloc, line, clock, timed, &FreeGate)
    }

    fn has_refused(&self) -> bool {
        false
    }
}

/// Runs a session.
pub fn serve_session<R: Threads + Sync, S: Source, K: Sink, C: Clock>(
    rt: &R,
    alloc: Global,
    input: &mut S,
    output: &mut K,
    clock: &mut C,
    timed: &mut TimedList,
) -> Status
    ensures run { (engines : Engines) → SessionRun result
        (world (sides (S.rest input.old) (K.written output.old))
        (times (C.last clock.old) (C.readings clock.old) timed.old) engines)
        (world (sides (S.rest input.new) (K.written output.new))
        (times (C.last clock.new) (C.readings clock.new) timed.new) engines) }
    ensures reads { HasCause (result ≡ Status.ReadFault) (S.read_faults input.old)
        (S.read_faults input.new) }
    ensures writes { HasCause (result ≡ Status.WriteFault) (K.write_faults output.old)
        (K.write_faults output.new) }
{
    let mut session: Session<FastGame> = Session::new();
    serve(rt, alloc, &mut session, input, output, clock, timed)
}
