//! Runs over texts in memory.

ghost use Rattle.std.specs.Prelude.{◌≡◌, ◌≤◌, ◌↔◌, IsTrue, [], length};
ghost use Rattle.io_edge.specs.Calls.{new_calls};
ghost use Rattle.line_feed.specs.Feed.{input_limit};
ghost use Rattle.hive_library.specs.Runs.{GivesRun};

use crate::faults::Fault;
use crate::rooms::{give, put_as};
use command_runs::Status;
use io_edge::MemSink;
use std::alloc::Global;

/// A text of this many bytes or more is too long for a command.
const INPUT_LIMIT: usize = 1_099_511_627_776;

/// Whether the text is too long for a command.
pub(crate) fn is_too_long(text: &[u8]) -> bool
    ensures { IsTrue result ↔ (input_limit ≤ length text.now) }
{
    INPUT_LIMIT <= text.len()
}

/// A sink that has taken no byte. It takes every byte while there is memory.
pub(crate) fn new_sink(alloc: Global) -> MemSink
    ensures { result ≡ record { written = []; sizes = []; calls = new_calls [] } }
{
    MemSink::new(alloc, Vec::new(alloc), Vec::new(alloc))
}

/// Gives what a run over memory wrote, by the status with which it ended. Any status other than
/// `Done`, `Refused` and `BadInput` means that memory ran out. A text in memory is read with no
/// fault, and a write to memory fails only if memory runs out.
pub(crate) fn give_run(status: Status, written: &[u8], room: &mut [u8], needed: &mut usize) -> u32
    ensures { GivesRun status written.now result room.old room.new needed.new }
{
    match status {
        Status::Done | Status::Refused | Status::BadInput => {
            put_as(u32::from(status.code()), written, room, needed)
        }
        _ => give(Err(Fault::Memory), room, needed),
    }
}
