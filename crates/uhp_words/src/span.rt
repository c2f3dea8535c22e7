//! Parts of a line.

ghost use Rattle.std.specs.Prelude.{◌≡◌, ◌+◌, ◌≤◌, length};
ghost use Rattle.uhp_words.specs.Spans.{bytes_at, span_of};
ghost use Rattle.io_edge.specs.Lines.{greatest_line};

/// A part of a line: it begins after `at` bytes and has `len` bytes.
#[derive(Clone, Copy, Debug, PartialEq, Eq)]
pub struct Span {
    pub at: u32,
    pub len: u32,
}

/// The bytes of a part of the line.
pub fn part(line: &[u8], span: Span) -> &[u8]
    requires { span.at + span.len ≤ length line.now }
    ensures { result.now ≡ bytes_at line.now span }
{
    let start = span.at as usize;
    &line[start..start + span.len as usize]
}

/// The span of the word with which `rest` begins, if `rest` is a suffix of the text.
pub(crate) fn span_of(text: &[u8], rest: &[u8], word: &[u8]) -> Span
    requires short { length text.now ≤ greatest_line }
    requires within { length rest.now ≤ length text.now }
    requires begins { length word.now ≤ length rest.now }
    ensures { result ≡ span_of text.now rest.now word.now }
{
    Span {
        at: (text.len() - rest.len()) as u32,
        len: word.len() as u32,
    }
}
