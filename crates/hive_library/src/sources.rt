//! A text in memory as the input of a command.

ghost use Rattle.std.specs.Prelude.{◌≡◌, ◌≤◌, ℕ, List, Some, length, take, drop};
ghost use Rattle.io_edge.specs.Outside.{Reads, no_side};

use io_edge::{ReadAnswer, Source};
use std::marker::Model;

/// Copies the first bytes.
fn copy_front(from: &[u8], to: &mut [u8], count: usize)
    requires given { count ≤ length from.now }
    requires room { count ≤ length to.old }
    ensures { take count to.new ≡ take count from.now }
{
    to[..count].copy_from_slice(&from[..count]);
}

/// A source over the bytes of a text that its owner lends. It never fails: its count of faults is
/// always 0. Contracts see the bytes that are left.
#[derive(Drop)]
pub(crate) struct TextSource<'a> {
    text: &'a [u8],
    at: usize,
}

impl<'a> Model for TextSource<'a> {
    ghost Value = { List ℕ };

    ghost view = { λ s. drop s.at s.text.now };

    ghost invariant = { λ s. s.at ≤ length s.text.now };
}

impl<'a> TextSource<'a> {
    /// The whole text is left.
    pub(crate) fn new(text: &'a [u8]) -> TextSource<'a>
        ensures { result ≡ text.now }
    {
        TextSource { text, at: 0 }
    }
}

impl Source for TextSource<'_> {
    ghost rest = { λ left. Some left };

    ghost read_faults = { λ _. 0 };

    ghost source_aside = { λ _. no_side };

    /// The answer is `End` if no byte is left. Otherwise it gives the bytes that are left, as far
    /// as the buffer has room.
    #[tactic(auto, using(io_edge::proofs::Told::next_piece))]
    fn read(&mut self, buffer: &mut [u8]) -> ReadAnswer {
        let (_, left) = self.text.split_at(self.at);
        if left.is_empty() {
            return ReadAnswer::End;
        }
        let count = left.len().min(buffer.len());
        copy_front(left, buffer, count);
        self.at += count;
        ReadAnswer::Got(count)
    }
}
