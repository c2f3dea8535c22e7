//! Standard input and output as a source and a sink. Contracts cannot observe their bytes.
ghost use Rattle.std.specs.Prelude.{◌≡◌, ◌≤◌, None, length, IfOk};
ghost use Rattle.io_edge.specs.Outside.{no_side};

use crate::patience::Patient;
use io_edge::{ReadAnswer, Sink, Source, WriteAnswer};
use std::io;
use std::io::{Read, Write};
use std::marker::Model;
use std::time::Clock;

/// A reader or a writer, and how many of its calls have failed. Contracts see both.
#[derive(Drop)]
pub struct Counted<T> {
    stream: T,
    faults: u64,
}

impl<T> Model for Counted<T> {
    ghost use Rattle.machine_edge.specs.States.{CountedStream};

    ghost Value = { CountedStream T };

    ghost view = { λ s. record {
      stream = s.stream;
      faults = s.faults;
    } };
}

impl<T> Counted<T> {
    /// A stream with no failed call.
    pub fn new(stream: T) -> Self
        ensures { result ≡ record { stream = stream; faults = 0 } }
    {
        Counted { stream, faults: 0 }
    }

    /// How many calls have failed.
    pub(crate) fn faults(&self) -> u64
        ensures { result ≡ self.now.faults }
    {
        self.faults
    }
}

impl<'a, R: Clock, S> Counted<Patient<'a, R, S>> {
    /// The next read begins another answer.
    pub(crate) fn begin_answer(&mut self)
        ensures { self.new.faults ≡ self.old.faults }
    {
        self.stream.begin_answer();
    }

    /// From the next read on, the pipe is read for this many milliseconds in all.
    pub(crate) fn allow(&mut self, limit: u64)
        ensures { self.new.faults ≡ self.old.faults }
    {
        self.stream.allow(limit);
    }
}

/// A reader as a source. Each failed read is counted.
impl<R: Read> Source for Counted<R> {
    ghost rest = { λ _. None };

    ghost read_faults = { λ s. s.faults };

    ghost source_aside = { λ _. no_side };

    fn read(&mut self, buffer: &mut [u8]) -> ReadAnswer {
        match self.stream.read(buffer) {
            Ok(0) => ReadAnswer::End,
            Ok(count) => ReadAnswer::Got(count),
            Err(_) => {
                self.faults = self.faults.saturating_add(1);
                ReadAnswer::Failed
            }
        }
    }
}

impl<W: Write> Counted<W> {
    /// Writes an initial part of the bytes and flushes, and answers how many were written.
    fn write_through(&mut self, bytes: &[u8]) -> io::Result<usize>
        ensures faults { self.new.faults ≡ self.old.faults }
        ensures most { IfOk result (λ n. n ≤ length bytes.now) }
    {
        let count = self.stream.write(bytes)?;
        self.stream.flush()?;
        Ok(count)
    }
}

/// A writer as a sink, flushed after each write. Each failed write or flush is counted, and so is a
/// write that takes no byte.
impl<W: Write> Sink for Counted<W> {
    ghost written = { λ _. None };

    ghost write_faults = { λ s. s.faults };

    ghost sink_aside = { λ _. no_side };

    fn write(&mut self, bytes: &[u8]) -> WriteAnswer {
        match self.write_through(bytes) {
            Ok(count) if count > 0 => WriteAnswer::Took(count),
            _ => {
                self.faults = self.faults.saturating_add(1);
                WriteAnswer::Failed
            }
        }
    }
}
