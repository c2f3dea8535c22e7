//! A link in memory: both sides of one program.
ghost use Rattle.std.specs.Prelude.{◌≡◌, ◌<◌, ◌↔◌, ◌+◌, IsTrue, length, Some, refl};
ghost use Rattle.io_edge.specs.Outside.{Reads, Writes, HasCause};
ghost use Rattle.io_edge.specs.Memory.{LinkState, ReadsInMemory, WritesInMemory, as_new};

use crate::io_answers::{ReadAnswer, WriteAnswer};
use crate::memory::{MemSink, MemSource};
use crate::sides::{Link, Sink, Source};
use std::marker::Model;

/// What a program says, and what it is told, in memory.
///
/// Contracts see both sides, each as the source or the sink that it is.
#[derive(Drop)]
pub struct MemLink {
    source: MemSource,
    sink: MemSink,
}

impl Model for MemLink {
    ghost Value = { LinkState };

    ghost view = { λ l. record { source = l.source; sink = l.sink } };
}

impl MemLink {
    /// The link of both sides, as they are. It makes no list of its own, and so it takes no
    /// allocator.
    pub fn new(source: MemSource, sink: MemSink) -> Self
        ensures { result ≡ record { source = source; sink = sink } }
    {
        MemLink { source, sink }
    }

    /// The bytes that were written.
    pub fn sent(&self) -> &[u8]
        ensures { result.now ≡ self.now.sink.written }
    {
        self.sink.bytes()
    }

    /// Before any call on either side, with nothing written.
    pub(crate) fn restart(&mut self)
        ensures { self.new ≡ as_new self.old }
    {
        self.source.restart();
        self.sink.restart();
    }

    /// Whether a read or a write has failed.
    pub(crate) fn has_failed(&self) -> bool
        ensures { IsTrue result ↔ (0 < self.now.source.calls.faults + self.now.sink.calls.faults) }
    {
        self.source.faults() > 0 || self.sink.faults() > 0
    }
}

impl Source for MemLink {
    ghost rest = { λ l. Some l.source.left };

    ghost read_faults = { λ l. l.source.calls.faults };

    ghost source_aside = { λ l. record {
      bytes = Some l.sink.written;
      faults = l.sink.calls.faults;
    } };

    /// Reads from the source, by its rules, and leaves the sink.
    fn read(&mut self, buffer: &mut [u8]) -> ReadAnswer
        requires { 0 < length buffer.old }
        ensures bytes { Reads result buffer.new (Some self.old.source.left)
            (Some self.new.source.left) }
        ensures cause { HasCause (result ≡ ReadAnswer.Failed) self.old.source.calls.faults
            self.new.source.calls.faults }
        ensures exact { ReadsInMemory result (length buffer.old) self.old.source self.new.source }
        ensures sink { self.new.sink ≡ self.old.sink }
    {
        self.source.read(buffer)
    }
}

impl Sink for MemLink {
    ghost written = { λ l. Some l.sink.written };

    ghost write_faults = { λ l. l.sink.calls.faults };

    ghost sink_aside = { λ l. record {
      bytes = Some l.source.left;
      faults = l.source.calls.faults;
    } };

    /// Writes to the sink, by its rules, and leaves the source.
    fn write(&mut self, bytes: &[u8]) -> WriteAnswer
        requires { 0 < length bytes.now }
        ensures bytes { Writes result bytes.now (Some self.old.sink.written)
            (Some self.new.sink.written) }
        ensures cause { HasCause (result ≡ WriteAnswer.Failed) self.old.sink.calls.faults
            self.new.sink.calls.faults }
        ensures exact { WritesInMemory result (length bytes.now) self.old.sink self.new.sink }
        ensures source { self.new.source ≡ self.old.source }
    {
        self.sink.write(bytes)
    }
}

impl Link for MemLink {
    ghost reading_leaves = { λ _. refl };

    ghost writing_leaves = { λ _. refl };
}
