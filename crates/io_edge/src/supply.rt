//! Bytes that come in pieces.
ghost use Rattle.std.specs.Prelude.{◌≡◌, ◌<◌, ◌≤◌, length, take, drop, vec_len, Some};
ghost use Rattle.io_edge.specs.Outside.{Reads};
ghost use Rattle.io_edge.specs.Calls.{piece_of};
ghost use Rattle.io_edge.specs.Memory.{Supply, Gives};

use crate::io_answers::ReadAnswer;
use std::marker::Model;

/// As many of so many bytes as the piece of a call holds, by the greatest sizes in turn: the last
/// size repeats, an empty list is no bound, and 0 counts as 1.
pub(crate) fn piece_of(sizes: &[usize], call: u64, bytes: usize) -> usize
    requires { 0 < call }
    ensures size { result ≡ piece_of sizes.now call bytes }
    ensures some { 0 < bytes → 0 < result }
    ensures most { result ≤ bytes }
{
    if sizes.is_empty() {
        return bytes;
    }
    let place = call.min(sizes.len() as u64) - 1;
    sizes[place as usize].max(1).min(bytes)
}

/// Copies the first bytes.
fn copy_front(from: &[u8], to: &mut [u8], count: usize)
    requires given { count ≤ length from.now }
    requires room { count ≤ length to.old }
    ensures { take count to.new ≡ take count from.now }
{
    to[..count].copy_from_slice(&from[..count]);
}

/// The bytes that are left, and the greatest sizes of their pieces.
#[derive(Drop)]
pub(crate) struct Supply {
    bytes: Vec<u8>,
    at: usize,
    sizes: Vec<usize>,
}

impl Model for Supply {
    ghost Value = { Supply };

    ghost view = { λ s. record { left = drop s.at s.bytes.items; sizes = s.sizes.items } };

    ghost invariant = { λ s. s.at ≤ vec_len s.bytes };
}

impl Supply {
    pub(crate) fn new(bytes: Vec<u8>, sizes: Vec<usize>) -> Self
        ensures { result ≡ record { left = bytes.items; sizes = sizes.items } }
    {
        Supply {
            bytes,
            at: 0,
            sizes,
        }
    }

    /// Gives the piece of a call, or the end where no byte is left.
    #[tactic(auto, using(crate::proofs::Told::next_piece))]
    pub(crate) fn give(&mut self, call: u64, buffer: &mut [u8]) -> ReadAnswer
        requires called { 0 < call }
        requires room { 0 < length buffer.old }
        ensures bytes { Reads result buffer.new (Some self.old.left) (Some self.new.left) }
        ensures piece { Gives result self.old.left self.old.sizes call (length buffer.old) }
        ensures sizes { self.new.sizes ≡ self.old.sizes }
    {
        let (_, left) = self.bytes.as_slice().split_at(self.at);
        if left.is_empty() {
            return ReadAnswer::End;
        }
        let count = piece_of(self.sizes.as_slice(), call, left.len().min(buffer.len()));
        copy_front(left, buffer, count);
        self.at += count;
        ReadAnswer::Got(count)
    }
}
