//! A replay as a service: the answer to each line is the written form of its game, or a refusal.
ghost use Rattle.std.specs.Prelude.{◌≡◌, Bool, true, false};
ghost use Rattle.io_edge.specs.Outside.{HasCause};
ghost use Rattle.io_edge.specs.Starts.{Engines};
ghost use Rattle.command_runs.specs.World.{sides, times, world};
ghost use Rattle.line_services.specs.Replay.{ReplayRun, replays};

use crate::replay_lines::answer_line;
use crate::service::{LineService, serve};
use command_runs::Status;
use hive_model::{Game, TimedList};
use io_edge::{Clock, Sink, Source};
use std::alloc::{AllocError, Global};
use std::marker::{Model, PhantomData};
use std::thread::Threads;
use uhp_session::{LineIn, Reply};

/// A type that says whether the rule of third repetition is on.
trait Rule {
    /// Whether the rule is on.
    ghost is_on: { Bool };

    /// The same answer, for code.
    fn is_on() -> bool
        ensures { result ≡ is_on };
}

/// Third repetition draws a game.
#[derive(Drop)]
struct SwitchedOn;

/// Third repetition draws no game.
#[derive(Drop)]
struct SwitchedOff;

impl Rule for SwitchedOn {
    ghost is_on = { true };

    fn is_on() -> bool {
        true
    }
}

impl Rule for SwitchedOff {
    ghost is_on = { false };

    fn is_on() -> bool {
        false
    }
}

/// A replay over games of this kind and by this rule of third repetition. Its view is whether a
/// line was refused.
#[derive(Drop)]
struct Replay<G: Game, L: Rule> {
    refused: bool,
    games: PhantomData<G>,
    rule: PhantomData<L>,
}

impl<G: Game, L: Rule> Model for Replay<G, L> {
    ghost use Rattle.std.specs.Prelude.{Bool};

    ghost Value = { Bool };

    ghost view = { λ r. r.refused };
}

impl<G: Game, L: Rule> Replay<G, L> {
    /// A replay that has refused no line yet.
    fn new() -> Self
        ensures { result ≡ false }
    {
        Replay {
            refused: false,
            games: PhantomData,
            rule: PhantomData,
        }
    }
}

impl<G: Game + Drop, L: Rule + Drop> LineService for Replay<G, L> {
    ghost service = { replays L.is_on };

    ghost takes_time = { false };

    fn preface(&self) -> &'static [u8] {
        b""
    }

    fn answer<R: Threads + Sync, C: Clock>(
        &mut self,
        _rt: &R,
        alloc: Global,
        line: LineIn<'_>,
        clock: &mut C,
        timed: &mut TimedList,
    ) -> Result<Reply, AllocError> {
        let answer = answer_line::<G>(alloc, L::is_on(), line)?;
        self.refused = self.refused || answer.refused;
        Ok(Reply::Text(answer.text))
    }

    fn has_refused(&self) -> bool {
        self.refused
    }
}

/// Runs a replay over games of this kind, with or without the rule of third repetition.
pub fn serve_replay<R: Threads + Sync, S: Source, K: Sink, C: Clock, G: Game + Drop>(
    rt: &R,
    alloc: Global,
    repetition: bool,
    input: &mut S,
    output: &mut K,
    clock: &mut C,
    timed: &mut TimedList,
) -> Status
    ensures run { (engines : Engines) → ReplayRun repetition result
        (world (sides (S.rest input.old) (K.written output.old))
        (times (C.last clock.old) (C.readings clock.old) timed.old) engines)
        (world (sides (S.rest input.new) (K.written output.new))
        (times (C.last clock.new) (C.readings clock.new) timed.new) engines) }
    ensures reads { HasCause (result ≡ Status.ReadFault) (S.read_faults input.old)
        (S.read_faults input.new) }
    ensures writes { HasCause (result ≡ Status.WriteFault) (K.write_faults output.old)
        (K.write_faults output.new) }
    ensures clock { clock.new ≡ clock.old }
    ensures timed { timed.new ≡ timed.old }
{
    if repetition {
        let mut service: Replay<G, SwitchedOn> = Replay::new();
        serve(rt, alloc, &mut service, input, output, clock, timed)
    } else {
        let mut service: Replay<G, SwitchedOff> = Replay::new();
        serve(rt, alloc, &mut service, input, output, clock, timed)
    }
}
