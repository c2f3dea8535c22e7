//! The run of an audit.
ghost use Rattle.std.specs.Prelude.{◌≡◌, ◌≢◌, Err, IfOk};
ghost use Rattle.audit_core.specs.AuditState.{break_off};
ghost use Rattle.audit_core.specs.Keeps.{IsPlan};
ghost use Rattle.audit_command.specs.Wires.{TookLimit, wire};
ghost use Rattle.audit_command.specs.Runs.{RanOver, unread};

use crate::turns::{Turned, turn};
use audit_core::{AuditPlan, Auditor, Fault};
use hive_model::Game;
use io_edge::Link;
use line_feed::LineReader;
use std::alloc::{AllocError, Global};

/// Why an audit did not come to its end.
#[derive(Clone, Copy, Debug, PartialEq, Eq)]
pub enum Halt {
    /// Memory ran out.
    Memory,
    /// The engine has written 1,099,511,627,776 bytes, the most that are read.
    Full,
}

impl From<AllocError> for Halt {
    ghost use Rattle.audit_command.specs.declared.run.Halt.TheVariants.{Memory};

    ghost from_gives = { λ _ halt. halt ≡ Memory };

    fn from(_fault: AllocError) -> Halt {
        Halt::Memory
    }
}

/// The auditor after this fault ended the audit, if there is memory for what it writes last.
fn broken<G: Game + Drop>(mut auditor: Auditor<G>, fault: Fault) -> Result<Auditor<G>, Halt>
    ensures over { IfOk result (λ a. a ≡ break_off auditor fault) }
    ensures memory { result ≢ Err Halt.Full }
{
    match auditor.break_off(fault) {
        Ok(()) => Ok(auditor),
        Err(_) => Err(Halt::Memory),
    }
}

/// The fault that a failed read is reported as.
fn unread(plan: AuditPlan) -> Fault
    ensures { result ≡ unread plan }
{
    if plan.patient {
        Fault::Late
    } else {
        Fault::Broke
    }
}

/// Runs an audit of one engine to its end. It sends the lines of the auditor, and gives it those of
/// the engine. The answer is an auditor that is over.
///
/// The text to be written is that of the audit of the engine's lines. If a read or a write failed,
/// it is that of the lines read before, and a finding. The finding is `late` if a read failed and
/// there is a limit on the wait for an answer, and otherwise `broke`. If the link's bytes are
/// observable and no call failed, the bytes sent and the text are those of the audit of its lines.
///
/// # Errors
///
/// Memory runs out, or the engine has written as many bytes as the limit of what is read.
pub fn run_audit<L: Link, G: Game + Drop>(
    alloc: Global,
    link: &mut L,
    plan: AuditPlan,
) -> Result<Auditor<G>, Halt>
    requires { IsPlan plan }
    ensures over { IfOk result (λ a. RanOver plan a
        (wire (L.rest link.old) (L.written link.old)
        (L.read_faults link.old) (L.write_faults link.old))
        (wire (L.rest link.new) (L.written link.new)
        (L.read_faults link.new) (L.write_faults link.new))) }
    ensures full { result ≡ Err Halt.Full → TookLimit (L.rest link.old) (L.rest link.new) }
{
    let mut auditor = Auditor::new(alloc, plan)?;
    let mut reader = LineReader::new(alloc)?;
    'turns: loop {
        if auditor.is_over() {
            return Ok(auditor);
        }
        match turn(&mut auditor, &mut reader, link) {
            Turned::Heard => {}
            Turned::Long => return Ok(auditor),
            Turned::Ended => return broken(auditor, Fault::Ended),
            Turned::ReadFault => return broken(auditor, unread(plan)),
            Turned::WriteFault => return broken(auditor, Fault::Broke),
            Turned::Memory => return Err(Halt::Memory),
            Turned::Full => return Err(Halt::Full),
        }
    }
}
