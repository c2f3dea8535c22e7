//! The fields of the lines of a certificate.

ghost use Rattle.std.specs.Prelude.{
  ◌≡◌,
  ◌≤◌,
  ℕ,
  List,
  length,
  Option,
  None,
  Some,
  IfOk,
  IfSome,
  MatchOption,
};
ghost use Rattle.game_text.specs.Turns.{behind_word};
ghost use Rattle.move_text.specs.Readers.{number_at};
ghost use Rattle.search_laws.specs.Laws.{IsSmall};
ghost use Rattle.certificate_text.specs.Text.{
  number_behind,
  move_at,
  value_at,
  int_at,
  index_at,
};
ghost use Rattle.io_edge.specs.Lines.{greatest_line};

use hive_model::LineText;
use move_text::read_number;
use std::alloc::{AllocError, Global};

/// What one line of a head holds.
pub trait Field {
    /// Its type, once it is read.
    type Value;

    /// What a line has of it, if anything.
    ghost at: { Self → List ℕ → Option Self.Value };

    /// What holds of each value that a line has.
    ghost holds: { Self → Self.Value → Type 0 };

    /// Reads it from a line of at most 65,536 bytes.
    ///
    /// # Errors
    ///
    /// Out of memory.
    fn read(&self, line: &[u8]) -> Result<Option<Self::Value>, AllocError>
        requires { length line.now ≤ greatest_line }
        ensures found { IfOk result (λ found. found ≡ at self.now line.now) }
        ensures holds { IfOk result (λ found. IfSome found (holds self.now)) };
}

/// The rest of the text after a word, if the text begins with that word.
pub fn behind<'a>(text: &'a [u8], word: &[u8]) -> Option<&'a [u8]>
    ensures found { MatchOption result
        (behind_word word.now text.now ≡ None)
        (λ rest. behind_word word.now text.now ≡ Some rest.now) }
    ensures short { IfSome result (λ rest. length rest.now ≤ length text.now) }
{
    text.strip_prefix(word)
}

/// The number that the text is, if it is in this range and has no leading zero.
pub fn number_at(text: &[u8], least: u64, most: u64) -> Option<u64>
    ensures value { result ≡ number_at text.now least most }
    ensures range { IfSome result (λ n. (least ≤ n) × (n ≤ most)) }
{
    read_number(text, least, most)
}

/// The number in this range after a word, if the text begins with that word.
fn number_behind(text: &[u8], word: &[u8], least: u32, most: u32) -> Option<u32>
    ensures number { result ≡ number_behind word.now least most text.now }
    ensures range { IfSome result (λ n. (least ≤ n) × (n ≤ most)) }
{
    let rest = behind(text, word)?;
    let number = number_at(rest, least as u64, most as u64)?;
    Some(number as u32)
}

/// A number in a range, after a word.
#[derive(Clone, Copy)]
pub struct NumberField<'a> {
    pub word: &'a [u8],
    pub least: u32,
    pub most: u32,
}

impl Field for NumberField<'_> {
    type Value = u32;

    ghost at = { λ field line. number_behind field.word.now field.least field.most line };

    ghost holds = { λ field n. (field.least ≤ n) × (n ≤ field.most) };

    fn read(&self, line: &[u8]) -> Result<Option<u32>, AllocError> {
        Ok(number_behind(line, self.word, self.least, self.most))
    }
}

/// The text of the move that the fourth line claims, if it is not empty.
fn move_at(text: &[u8]) -> Option<&[u8]>
    ensures found { MatchOption result (move_at text.now ≡ None)
        (λ t. move_at text.now ≡ Some t.now) }
    ensures short { IfSome result (λ t. length t.now ≤ length text.now) }
{
    let rest = behind(text, b"move ")?;
    if rest.is_empty() { None } else { Some(rest) }
}

/// A text that has these bytes.
fn text_of(alloc: Global, bytes: &[u8]) -> Result<LineText, AllocError>
    ensures { IfOk result (λ t. t ≡ bytes.now) }
{
    let mut text = LineText::new(alloc);
    text.push_all(bytes)?;
    Ok(text)
}

/// The text of the claimed move.
#[derive(Clone, Copy)]
pub(crate) struct ClaimText {
    pub alloc: Global,
}

impl Field for ClaimText {
    type Value = LineText;

    ghost at = { λ _ line. move_at line };

    ghost holds = { λ _ text. length text ≤ greatest_line };

    fn read(&self, line: &[u8]) -> Result<Option<LineText>, AllocError> {
        match move_at(line) {
            Some(bytes) => {
                let text = text_of(self.alloc, bytes)?;
                Ok(Some(text))
            }
            None => Ok(None),
        }
    }
}

/// The whole number that the text is, from -1,000,064 to 1,000,064.
fn int_at(text: &[u8]) -> Option<i32>
    ensures value { result ≡ int_at text.now }
    ensures range { IfSome result (λ v. IsSmall 1000064 v) }
{
    match behind(text, b"-") {
        Some(digits) => {
            let size = number_at(digits, 1, 1_000_064)?;
            Some(-(size as i32))
        }
        None => {
            let size = number_at(text, 0, 1_000_064)?;
            Some(size as i32)
        }
    }
}

/// The value that the fifth line claims, from -1,000,064 to 1,000,064.
fn value_at(text: &[u8]) -> Option<i32>
    ensures value { result ≡ value_at text.now }
    ensures range { IfSome result (λ v. IsSmall 1000064 v) }
{
    let rest = behind(text, b"value ")?;
    int_at(rest)
}

/// The claimed value, from -1,000,064 to 1,000,064.
#[derive(Clone, Copy)]
pub(crate) struct ClaimValue;

impl Field for ClaimValue {
    type Value = i32;

    ghost at = { λ _ line. value_at line };

    ghost holds = { λ _ v. IsSmall 1000064 v };

    fn read(&self, line: &[u8]) -> Result<Option<i32>, AllocError> {
        Ok(value_at(line))
    }
}

/// The index that a line is, from 0 to 5487.
pub(crate) fn index_at(text: &[u8]) -> Option<u32>
    ensures { result ≡ index_at text.now }
{
    let index = number_at(text, 0, 5487)?;
    Some(index as u32)
}
