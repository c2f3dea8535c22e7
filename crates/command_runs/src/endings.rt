//! The text with which a run ends, and the line that says why the input is bad.
ghost use Rattle.std.specs.Prelude.{◌≡◌, ◌≢◌};
ghost use Rattle.io_edge.specs.Outside.{HasCause};
ghost use Rattle.command_runs.specs.Answered.{WritesAs, TellsNone};

use crate::no_game::NoGame;
use crate::status::Status;
use io_edge::{Sink, write_all};

/// Writes a text and ends the run with this status, or with `WriteFault` if a write fails.
pub fn end_with<K: Sink>(text: &[u8], status: Status, output: &mut K) -> Status
    requires { status ≢ Status.WriteFault }
    ensures told { WritesAs text.now status result (K.written output.old) (K.written output.new) }
    ensures cause { HasCause (result ≡ Status.WriteFault) (K.write_faults output.old)
        (K.write_faults output.new) }
{
    if write_all(output, text) {
        status
    } else {
        Status::WriteFault
    }
}

/// Writes the line that says why the input is not one game, if the input is at fault.
pub fn tell_none<K: Sink>(none: NoGame, output: &mut K) -> Status
    ensures told { TellsNone none result (K.written output.old) (K.written output.new) }
    ensures cause { HasCause (result ≡ Status.WriteFault) (K.write_faults output.old)
        (K.write_faults output.new) }
{
    match none {
        NoGame::Bad(line) => end_with(line.items(), Status::BadInput, output),
        NoGame::ReadFault => Status::ReadFault,
        NoGame::InputFull => Status::InputFull,
        NoGame::Memory => Status::Memory,
    }
}
