//! The command: the program is started, audited and closed, and the text is written.
ghost use Rattle.std.specs.Prelude.{
  ◌≡◌,
  ◌≢◌,
  ◌+◌,
  ◌<◌,
  length,
  map,
  string_bytes,
  Err,
  IfOk,
};
ghost use Rattle.io_edge.specs.Outside.{Collects, HasCause, Told};
ghost use Rattle.command_runs.specs.Answered.{WritesAs};
ghost use Rattle.command_runs.specs.World.{Times, sides, world};
ghost use Rattle.audit_core.specs.Keeps.{IsPlan};
ghost use Rattle.audit_command.specs.Wires.{HasLimit};
ghost use Rattle.audit_command.specs.Audit.{
  AuditRun,
  AuditStarts,
  AuditedOver,
  CountsFault,
  EndsAudit,
  StartsNone,
  verdict_of,
};

use crate::run::{Halt, run_audit};
use audit_core::{AuditPlan, Auditor};
use command_runs::{Status, end_with};
use hive_model::Game;
use io_edge::{Sink, Spawner, StartFault};
use std::alloc::Global;

/// Closes a program.
fn close_engine<P: Spawner>(engine: P::Engine, spawner: &mut P)
    ensures sent { Collects (P.engines spawner.old).sent (P.engines spawner.new).sent
        (P.Engine.written engine) }
    ensures counted { CountsFault (P.Engine.read_faults engine + P.Engine.write_faults engine)
        (P.engines spawner.old).engine_faults (P.engines spawner.new).engine_faults }
    ensures none_started { StartsNone (P.engines spawner.old) (P.engines spawner.new) }
{
    spawner.close(engine);
}

/// Audits a program that was started, and closes it.
fn audit_and_close<P: Spawner, G: Game + Drop>(
    alloc: Global,
    mut engine: P::Engine,
    plan: AuditPlan,
    spawner: &mut P,
) -> Result<Auditor<G>, Halt>
    requires plan { IsPlan plan }
    requires fresh { (P.Engine.read_faults engine ≡ 0) × (P.Engine.write_faults engine ≡ 0) }
    ensures audited { IfOk result (λ a. AuditedOver plan a (P.Engine.rest engine)
        (P.Engine.written engine) (P.engines spawner.old) (P.engines spawner.new)) }
    ensures full { result ≡ Err Halt.Full → HasLimit (P.Engine.rest engine) }
    ensures closes { (w : Told)
        × Collects (P.engines spawner.old).sent (P.engines spawner.new).sent w }
    ensures none_started { StartsNone (P.engines spawner.old) (P.engines spawner.new) }
{
    let auditor: Result<Auditor<G>, Halt> = run_audit(alloc, &mut engine, plan);
    close_engine(engine, spawner);
    auditor
}

/// The status of an audit with this number of findings.
fn verdict(findings: u64) -> Status
    ensures is { result ≡ verdict_of findings }
    ensures sound { result ≢ Status.WriteFault }
{
    if findings == 0 {
        Status::Done
    } else {
        Status::Refused
    }
}

/// Writes the text of an audit that is over.
fn tell<K: Sink, G: Game + Drop>(auditor: &Auditor<G>, output: &mut K) -> Status
    ensures told { WritesAs auditor.now.text (verdict_of auditor.now.findings) result
        (K.written output.old) (K.written output.new) }
    ensures cause { HasCause (result ≡ Status.WriteFault) (K.write_faults output.old)
        (K.write_faults output.new) }
{
    let status = verdict(auditor.findings());
    end_with(auditor.text(), status, output)
}

/// Audits a program: the one that the first word names, with the other words as its arguments.
///
/// Games are played with it, with moves drawn from the seed. Before each ply it is asked for the
/// legal moves. It must list exactly these, each once, in any order and spelling. Once a game, a
/// move that is not legal is tried, and the program must refuse it. Each of its other replies must
/// be the game string of the game.
///
/// Each wrong reply is a finding, and ends the game. Its line has the number of the game, counted
/// from 1, the number of plies played, the game string, and what is wrong. The last line counts
/// games, right lists, the moves on them and findings. The program is closed before the call
/// returns, whatever happens.
///
/// `Done` says that there is no finding, and `Refused` that there are some. In both cases the text
/// was written. `WriteFault` says that a write failed: only an initial part of the text was
/// written, and not all. `SpawnFault` says that the program did not start, and `Memory` that memory
/// ran out. `InputFull` says that the program has written 1,099,511,627,776 bytes. In these three
/// cases nothing was written. No other status is answered.
#[tactic(auto, using(crate::proofs::Closing::none_taken, crate::proofs::Closing::none_open))]
pub fn audit_engine<P: Spawner, K: Sink, G: Game + Drop>(
    alloc: Global,
    words: &[String],
    plan: AuditPlan,
    output: &mut K,
    spawner: &mut P,
) -> Status
    requires plan { IsPlan plan }
    requires some { 0 < length words.now }
    ensures run { (rest : Told) (times : Times) → AuditRun plan result
        (world (sides rest (K.written output.old)) times (P.engines spawner.old))
        (world (sides rest (K.written output.new)) times (P.engines spawner.new)) }
    ensures ends { EndsAudit result (K.write_faults output.old) (K.write_faults output.new)
        (P.engines spawner.old) (P.engines spawner.new) }
    ensures started { AuditStarts result (map string_bytes words.now)
        (P.engines spawner.old) (P.engines spawner.new) }
{
    match spawner.start(words) {
        Ok(engine) => match audit_and_close::<P, G>(alloc, engine, plan, spawner) {
            Ok(auditor) => tell(&auditor, output),
            Err(Halt::Memory) => Status::Memory,
            Err(Halt::Full) => Status::InputFull,
        },
        Err(StartFault::Failed) => Status::SpawnFault,
        Err(StartFault::Memory) => Status::Memory,
    }
}
