//! A source and a sink that take turns. A line is given only once everything was taken that had to
//! be written before it.
ghost use Rattle.std.specs.Prelude.{None};
ghost use Rattle.io_edge.specs.Outside.{no_side};

use io_edge::{ReadAnswer, Sink, Source, WriteAnswer};
use std::sync::atomic::{AtomicU64, Ordering};

/// Gives lines, each ended by an LF, one byte at a read. It fails if a line is wanted before the
/// replies to those before it were taken.
#[derive(Drop)]
pub struct TurnSource<'a> {
    taken: &'a AtomicU64,
    wanted: u64,
    turns: &'a [(&'a str, &'a str)],
    turn: usize,
    at: usize,
    faults: u64,
}

impl<'a> TurnSource<'a> {
    pub fn new(taken: &'a AtomicU64, greeting: &str, turns: &'a [(&'a str, &'a str)]) -> Self {
        TurnSource {
            taken,
            wanted: greeting.len() as u64,
            turns,
            turn: 0,
            at: 0,
            faults: 0,
        }
    }
}

impl<'a> Source for TurnSource<'a> {
    ghost rest = { λ _. None };

    ghost read_faults = { λ s. s.faults };

    ghost source_aside = { λ _. no_side };

    fn read(&mut self, buffer: &mut [u8]) -> ReadAnswer {
        if self.at == 0 && self.taken.load(Ordering::SeqCst) < self.wanted {
            self.faults = self.faults.saturating_add(1);
            return ReadAnswer::Failed;
        }
        if self.turn >= self.turns.len() {
            return ReadAnswer::End;
        }
        let (line, reply) = self.turns[self.turn];
        let bytes = line.as_bytes();
        if self.at >= bytes.len() {
            return ReadAnswer::End;
        }
        buffer[0] = bytes[self.at];
        self.at += 1;
        if self.at == bytes.len() {
            self.at = 0;
            self.turn += 1;
            self.wanted = self.wanted.saturating_add(reply.len() as u64);
        }
        ReadAnswer::Got(1)
    }
}

/// Counts the bytes that it takes.
#[derive(Drop)]
pub struct CountedSink<'a> {
    taken: &'a AtomicU64,
}

impl<'a> CountedSink<'a> {
    pub fn new(taken: &'a AtomicU64) -> Self {
        CountedSink { taken }
    }
}

impl<'a> Sink for CountedSink<'a> {
    ghost written = { λ _. None };

    ghost write_faults = { λ _. 0 };

    ghost sink_aside = { λ _. no_side };

    fn write(&mut self, bytes: &[u8]) -> WriteAnswer {
        self.taken.fetch_add(bytes.len() as u64, Ordering::SeqCst);
        WriteAnswer::Took(bytes.len())
    }
}
