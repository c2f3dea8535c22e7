//! The sides of a run in memory, made of slices.
ghost use Rattle.std.specs.Prelude.{◌≡◌, [], IfOk};
ghost use Rattle.memory_sides.specs.Settings.{setting_of, sink_of, source_of, link_of};

use io_edge::{MemLink, MemSink, MemSource};
use std::alloc::{AllocError, Global};
use std::fmt;

/// Three ways to cut what both sides pass: into pieces of one byte, of seven bytes, and of any
/// size.
pub const CUTS: [&[usize]; 3] = [&[1], &[7], &[]];

/// How the sides of a run are set up. It has the bytes to read, and the greatest sizes of the
/// pieces in which both sides pass bytes (none: no bound). It also has the numbers, from 1, of the
/// read and of the write that fail (0: none fails).
#[derive(Clone, Copy)]
pub struct MemSetting<'a> {
    input: &'a [u8],
    pieces: &'a [usize],
    failing_read: u64,
    failing_write: u64,
}

impl<'a> MemSetting<'a> {
    /// These bytes, in pieces of any size, and no call fails.
    pub fn of(input: &'a [u8]) -> MemSetting<'a>
        ensures { setting_of result ≡ record {
          input = input.now;
          sizes = [];
          failing_read = 0;
          failing_write = 0;
        } }
    {
        MemSetting {
            input,
            pieces: &[],
            failing_read: 0,
            failing_write: 0,
        }
    }

    /// The same in pieces of these greatest sizes.
    pub fn cut(self, pieces: &'a [usize]) -> MemSetting<'a>
        ensures { setting_of result ≡ record (setting_of self.entry) { sizes = pieces.now } }
    {
        MemSetting { pieces, ..self }
    }

    /// The same with the numbers of the read and of the write that fail.
    pub fn failing(self, read: u64, write: u64) -> MemSetting<'a>
        ensures { setting_of result ≡ record (setting_of self.entry) {
          failing_read = read;
          failing_write = write;
        } }
    {
        MemSetting {
            failing_read: read,
            failing_write: write,
            ..self
        }
    }

    /// The side that is read.
    pub fn source(&self, alloc: Global) -> Result<MemSource, AllocError>
        ensures { IfOk result (λ source. source ≡ source_of (setting_of self.now)) }
    {
        let bytes = Vec::from_slice(alloc, self.input)?;
        let pieces = Vec::from_slice(alloc, self.pieces)?;
        let fails = Vec::from_slice(alloc, &[self.failing_read])?;
        Ok(MemSource::new(bytes, pieces, fails))
    }

    /// The side that is written.
    pub fn sink(&self, alloc: Global) -> Result<MemSink, AllocError>
        ensures { IfOk result (λ sink. sink ≡ sink_of (setting_of self.now)) }
    {
        let pieces = Vec::from_slice(alloc, self.pieces)?;
        let fails = Vec::from_slice(alloc, &[self.failing_write])?;
        Ok(MemSink::new(alloc, pieces, fails))
    }

    /// Both sides of a program that says these bytes.
    pub fn link(&self, alloc: Global) -> Result<MemLink, AllocError>
        ensures { IfOk result (λ link. link ≡ link_of (setting_of self.now)) }
    {
        let source = self.source(alloc)?;
        Ok(MemLink::new(source, self.sink(alloc)?))
    }
}

/// Everything but the bytes, for the message of a test that fails.
impl fmt::Display for MemSetting<'_> {
    fn fmt<W: fmt::Write>(&self, f: &mut fmt::Formatter<W>) -> fmt::Result {
        let pieces = self.pieces;
        let read = self.failing_read;
        let write = self.failing_write;
        write!(f, "pieces of {pieces:?}, read {read}, write {write}")
    }
}
