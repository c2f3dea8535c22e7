//! The result of a run over programs in memory.
ghost use Rattle.std.specs.Prelude.{◌≡◌};
ghost use Rattle.memory_sides.specs.Settings.{sent_to};

use io_edge::{MemSink, MemSpawner};

/// How a run ended, what it wrote, and the starter with the closed links.
#[derive(Drop)]
pub struct Played<S> {
    pub status: S,
    pub output: MemSink,
    pub spawner: MemSpawner,
}

impl<S> Played<S> {
    /// What was sent to the closed link of this number, from 0. If there is none, a text says so.
    pub fn sent(&self, number: usize) -> &[u8]
        ensures { result.now ≡ sent_to self.now.spawner.closed number }
    {
        match self.spawner.closed().get(number) {
            Some(link) => link.sent(),
            None => b"none was closed".as_slice(),
        }
    }
}
