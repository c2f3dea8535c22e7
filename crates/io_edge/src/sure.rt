//! A source and a sink that never fail.
ghost use Rattle.std.specs.Prelude.{◌≡◌, ◌<◌, length, None, Some};
ghost use Rattle.io_edge.specs.Outside.{no_side, Reads, one_more};
ghost use Rattle.io_edge.specs.Memory.{SureState, Gives};

use crate::io_answers::{ReadAnswer, WriteAnswer};
use crate::sides::{Sink, Source};
use crate::supply::Supply;
use std::marker::Model;

/// A source over bytes in memory that never fails: its count of faults is always 0.
///
/// Contracts see the bytes that are left, the greatest sizes of its pieces, and how many reads were
/// made.
#[derive(Drop)]
pub struct SureSource {
    supply: Supply,
    made: u64,
}

impl Model for SureSource {
    ghost Value = { SureState };

    ghost view = { λ s. record { left = s.supply.left; sizes = s.supply.sizes; made = s.made } };
}

impl SureSource {
    /// A source over these bytes. It makes no list of its own, and so it takes no allocator.
    ///
    /// `pieces` are the greatest numbers of bytes that each read gives, in turn: the last one
    /// repeats, an empty list means no bound, and a 0 counts as 1.
    pub fn new(bytes: Vec<u8>, pieces: Vec<usize>) -> Self
        ensures { result ≡ record { left = bytes.items; sizes = pieces.items; made = 0 } }
    {
        SureSource {
            supply: Supply::new(bytes, pieces),
            made: 0,
        }
    }
}

impl Source for SureSource {
    ghost rest = { λ s. Some s.left };

    ghost read_faults = { λ _. 0 };

    ghost source_aside = { λ _. no_side };

    /// `End` comes where no byte is left, and else the piece of this read, as far as the buffer
    /// goes.
    fn read(&mut self, buffer: &mut [u8]) -> ReadAnswer
        requires { 0 < length buffer.old }
        ensures bytes { Reads result buffer.new (Some self.old.left) (Some self.new.left) }
        ensures piece { Gives result self.old.left self.old.sizes self.new.made
            (length buffer.old) }
        ensures sizes { self.new.sizes ≡ self.old.sizes }
        ensures made { self.new.made ≡ one_more self.old.made }
    {
        self.made = self.made.saturating_add(1);
        self.supply.give(self.made, buffer)
    }
}

/// A sink that takes every piece whole, keeps no byte and tells none. It never fails: its count of
/// faults is always 0.
#[derive(Drop)]
pub struct SureSink;

impl SureSink {
    /// The sink, of which there is one only.
    pub fn new() -> Self {
        SureSink
    }
}

impl Sink for SureSink {
    ghost written = { λ _. None };

    ghost write_faults = { λ _. 0 };

    ghost sink_aside = { λ _. no_side };

    /// Takes all of the bytes.
    fn write(&mut self, bytes: &[u8]) -> WriteAnswer
        requires { 0 < length bytes.now }
        ensures { result ≡ WriteAnswer.Took (length bytes.now) }
    {
        WriteAnswer::Took(bytes.len())
    }
}
