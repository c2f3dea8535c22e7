//! Items, one on a line.

ghost use Rattle.std.specs.Prelude.{◌≡◌, ◌+◌, [], ◌∷◌, Option, None, nat_eq, map, refl};
ghost use Rattle.std.specs.Option.{option_map};
ghost use Rattle.io_edge.specs.Lines.{Line, Text, TooLong};
ghost use Rattle.line_feed.specs.Feed.{input_limit};
ghost use Rattle.line_feed.specs.Ahead.{ahead_of};
ghost use Rattle.certificate_text.specs.Text.{index_in};
ghost use Rattle.certificate_text.specs.Heads.{in_all};
ghost use Rattle.certificate_text.specs.Taken.{HasRead, StopsAt};

use crate::fields::index_at;
use certificate_walks::{ItemAnswer, Items};
use io_edge::Source;
use line_feed::{LineAnswer, LineReader};
use std::marker::PhantomData;

/// The form of the lines that hold items.
pub trait LineForm {
    /// The type of the item on a line.
    type Item: Copy;

    /// The item that a line is, if it is one.
    ghost item: { Line → Option Self.Item };

    /// The item that a line is, if it is one.
    fn read(line: &[u8]) -> Option<Self::Item>
        ensures { result ≡ item (Text line.now) };

    /// A line that is too long is no item.
    ghost too_long: { item TooLong ≡ None };
}

/// An index on a line.
pub struct IndexLine;

impl LineForm for IndexLine {
    type Item = u32;

    ghost item = { index_in };

    fn read(line: &[u8]) -> Option<u32> {
        index_at(line)
    }

    ghost too_long = { refl };
}

/// The items on the lines to come from a reader and its source, which it borrows. A line that is
/// too long or malformed is a bad item.
#[derive(Drop)]
pub struct LineItems<'a, 'b, S: Source, F: LineForm> {
    reader: &'a mut LineReader,
    source: &'b mut S,
    lines: u64,
    form: PhantomData<F>,
}

/// The indices on the lines to come.
pub type LineIndices<'a, 'b, S> = LineItems<'a, 'b, S, IndexLine>;

impl<'a, 'b, S: Source, F: LineForm> LineItems<'a, 'b, S, F> {
    /// The items on all lines to come.
    pub fn new(reader: &'a mut LineReader, source: &'b mut S) -> LineItems<'a, 'b, S, F>
        ensures reader { result.reader.ghost_name ≡ reader.entry.ghost_name }
        ensures source { result.source.ghost_name ≡ source.entry.ghost_name }
        ensures same_reader { result.reader.now ≡ reader.old }
        ensures same_source { result.source.now ≡ source.old }
        ensures none { result.lines ≡ 0 }
    {
        LineItems {
            reader,
            source,
            lines: 0,
            form: PhantomData,
        }
    }

    /// How many lines were taken, capped at the greatest `u64`.
    pub fn lines(&self) -> u64
        ensures { result ≡ self.now.lines }
    {
        self.lines
    }
}

impl<S: Source, F: LineForm> Items for LineItems<'_, '_, S, F> {
    type Item = F::Item;

    ghost supply = { λ s. record {
      left = option_map (map F.item) (ahead_of s.reader.now (S.rest s.source.now));
      faults = S.read_faults s.source.now;
      full = nat_eq s.reader.now.taken input_limit;
      count = s.lines;
      lenders = record {
        references = s.reader.ghost_name ∷ s.source.ghost_name ∷ [];
        bytes = in_all s.reader.now (S.rest s.source.now);
      };
      known = λ input before. HasRead input (S.rest s.source.now) s.reader.now (before + s.lines);
      met = λ answer. StopsAt F.item answer s.reader.now;
    } };

    fn take(&mut self) -> ItemAnswer<F::Item> {
        match self.reader.next_line(self.source) {
            LineAnswer::Line => {
                self.lines = self.lines.saturating_add(1);
                match F::read(self.reader.line()) {
                    Some(item) => ItemAnswer::Item(item),
                    None => ItemAnswer::Bad,
                }
            }
            LineAnswer::TooLong => {
                self.lines = self.lines.saturating_add(1);
                ItemAnswer::Bad
            }
            LineAnswer::End => ItemAnswer::End,
            LineAnswer::Failed => ItemAnswer::Failed,
            LineAnswer::Full => ItemAnswer::Full,
        }
    }
}
