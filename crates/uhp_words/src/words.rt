//! Words and the spaces between them.

ghost use Rattle.std.specs.Prelude.{◌≡◌, ◌≤◌, length};
ghost use Rattle.uhp_words.specs.Spaces.{
  after_spaces,
  before_spaces,
  first_word,
  after_word,
  rest_of,
  is_word,
};

/// The text without its leading spaces.
pub(crate) fn after_spaces(text: &[u8]) -> &[u8]
    ensures value { result.now ≡ after_spaces text.now }
    ensures within { length result.now ≤ length text.now }
{
    let mut rest = text;
    while let [b' ', tail @ ..] = rest {
        rest = tail;
    }
    rest
}

/// The text without its final spaces.
pub(crate) fn before_spaces(text: &[u8]) -> &[u8]
    ensures value { result.now ≡ before_spaces text.now }
    ensures within { length result.now ≤ length text.now }
{
    let mut kept = text;
    while let [front @ .., last] = kept {
        if *last != b' ' {
            return kept;
        }
        kept = front;
    }
    kept
}

/// The text from its first space on.
fn after_word(text: &[u8]) -> &[u8]
    ensures value { result.now ≡ after_word text.now }
    ensures within { length result.now ≤ length text.now }
{
    let mut rest = text;
    while let [byte, tail @ ..] = rest {
        if *byte == b' ' {
            return rest;
        }
        rest = tail;
    }
    rest
}

/// The text up to its first space.
pub(crate) fn first_word(text: &[u8]) -> &[u8]
    ensures value { result.now ≡ first_word text.now }
    ensures within { length result.now ≤ length text.now }
{
    &text[..text.len() - after_word(text).len()]
}

/// What follows the first word and the spaces after it.
pub(crate) fn rest_of(text: &[u8]) -> &[u8]
    ensures value { result.now ≡ rest_of text.now }
    ensures within { length result.now ≤ length text.now }
{
    after_spaces(after_word(text))
}

/// Whether the text is one word: not empty, and without spaces.
pub(crate) fn is_word(text: &[u8]) -> bool
    ensures { result ≡ is_word text.now }
{
    !text.is_empty() && after_word(text).is_empty()
}
