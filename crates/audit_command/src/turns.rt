//! One turn of an audit.
ghost use Rattle.std.specs.Prelude.{◌≡◌, ◌-◌, ◌<◌, ℕ, List, false};
ghost use Rattle.io_edge.specs.Outside.{HasCause};
ghost use Rattle.line_feed.specs.Feed.{Takes, input_limit, settled};
ghost use Rattle.line_feed.specs.Ahead.{ahead_of};
ghost use Rattle.audit_core.specs.AuditState.{is_ended};
ghost use Rattle.audit_command.specs.Turns.{Sends, Hears, Turns};

use audit_core::Auditor;
use hive_model::Game;
use io_edge::{Link, write_all};
use line_feed::{LineReader, ShortAnswer};

/// The result of sending a line.
#[derive(Clone, Copy)]
pub(crate) enum Sending {
    /// It was sent whole.
    Sent,
    /// A write failed.
    Broke,
    /// Memory ran out.
    Memory,
}

/// The result of a turn.
#[derive(Clone, Copy)]
pub(crate) enum Turned {
    /// A line was read.
    Heard,
    /// A line is too long: its 65,537th byte was read.
    Long,
    /// No line is left.
    Ended,
    /// A read failed.
    ReadFault,
    /// A write failed.
    WriteFault,
    /// Memory ran out.
    Memory,
    /// The reader has taken the most bytes that it takes.
    Full,
}

/// Sends the line that is waiting.
fn send<L: Link, G: Game + Drop>(auditor: &mut Auditor<G>, link: &mut L) -> Sending
    ensures sends { Sends result auditor.old auditor.new (L.written link.old)
        (L.written link.new) }
    ensures rest { L.rest link.new ≡ L.rest link.old }
    ensures reads { L.read_faults link.new ≡ L.read_faults link.old }
    ensures cause { HasCause (result ≡ Sending.Broke) (L.write_faults link.old)
        (L.write_faults link.new) }
{
    match auditor.line() {
        Ok(line) => {
            if write_all(link, line.items()) {
                auditor.sent();
                Sending::Sent
            } else {
                Sending::Broke
            }
        }
        Err(_) => Sending::Memory,
    }
}

/// Reads the next line. A line that is too long is judged as soon as that is certain, at its
/// 65,537th byte. Whatever follows, it is too long.
fn listen<L: Link, G: Game + Drop>(
    auditor: &mut Auditor<G>,
    reader: &mut LineReader,
    link: &mut L,
) -> Turned
    ensures hears { Hears result auditor.old auditor.new (ahead_of reader.old (L.rest link.old))
        (ahead_of reader.new (L.rest link.new)) }
    ensures falls { result ≡ Turned.Heard
        → input_limit - settled reader.new < input_limit - settled reader.old }
    ensures takes { (bytes : List ℕ) × Takes (L.rest link.old) (L.rest link.new)
        reader.old.taken reader.new.taken bytes }
    ensures full { result ≡ Turned.Full → reader.new.taken ≡ input_limit }
    ensures written { L.written link.new ≡ L.written link.old }
    ensures writes { L.write_faults link.new ≡ L.write_faults link.old }
    ensures cause { HasCause (result ≡ Turned.ReadFault) (L.read_faults link.old)
        (L.read_faults link.new) }
{
    match reader.next_short_line(link) {
        ShortAnswer::Line => match auditor.hear(reader.line()) {
            Ok(()) => Turned::Heard,
            Err(_) => Turned::Memory,
        },
        ShortAnswer::Long => match auditor.pass_over() {
            Ok(()) => Turned::Long,
            Err(_) => Turned::Memory,
        },
        ShortAnswer::End => Turned::Ended,
        ShortAnswer::Failed => Turned::ReadFault,
        ShortAnswer::Full => Turned::Full,
    }
}

/// Sends the line that is waiting, and reads the next one.
pub(crate) fn turn<L: Link, G: Game + Drop>(
    auditor: &mut Auditor<G>,
    reader: &mut LineReader,
    link: &mut L,
) -> Turned
    requires { is_ended auditor.old.stage ≡ false }
    ensures turns { Turns result auditor.old auditor.new (ahead_of reader.old (L.rest link.old))
        (ahead_of reader.new (L.rest link.new)) (L.written link.old) (L.written link.new) }
    ensures falls { result ≡ Turned.Heard
        → input_limit - settled reader.new < input_limit - settled reader.old }
    ensures takes { (bytes : List ℕ) × Takes (L.rest link.old) (L.rest link.new)
        reader.old.taken reader.new.taken bytes }
    ensures full { result ≡ Turned.Full → reader.new.taken ≡ input_limit }
    ensures reads { HasCause (result ≡ Turned.ReadFault) (L.read_faults link.old)
        (L.read_faults link.new) }
    ensures writes { HasCause (result ≡ Turned.WriteFault) (L.write_faults link.old)
        (L.write_faults link.new) }
{
    match send(auditor, link) {
        Sending::Sent => listen(auditor, reader, link),
        Sending::Broke => Turned::WriteFault,
        Sending::Memory => Turned::Memory,
    }
}
