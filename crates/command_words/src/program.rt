//! A program and its words, in one text.
ghost use Rattle.std.specs.Prelude.{◌≡◌, ◌<◌, length, map, string_bytes, IfOk};
ghost use Rattle.command_words.specs.Matches.{between_spaces};
ghost use Rattle.command_words.specs.Programs.{begins_word};

use std::alloc::{AllocError, Global};

/// Whether a text consists of words that are separated by single spaces, none of them empty.
pub(crate) fn begins_words(text: &[u8]) -> bool
    ensures { result ≡ begins_word text.now }
{
    let mut begins = true;
    for i in 0..text.len() {
        let space = text[i] == b' ';
        if space && begins {
            return false;
        }
        begins = space;
    }
    !begins
}

/// The pieces between the spaces of a text, in order.
fn pieces_of(alloc: Global, text: &str) -> Result<Vec<&str>, AllocError>
    ensures { IfOk result (λ pieces. map (λ piece. piece.now) pieces.items
        ≡ between_spaces text.now) }
{
    text.split(' ').collect(alloc)
}

/// Owned texts with these bytes, in order.
fn strings_of(alloc: Global, pieces: &[&str]) -> Result<Vec<String>, AllocError>
    ensures { IfOk result (λ words. map string_bytes words.items
        ≡ map (λ piece. piece.now) pieces.now) }
{
    let mut words = Vec::new(alloc);
    for piece in pieces {
        words.push(String::from_str(alloc, *piece)?)?;
    }
    Ok(words)
}

/// The words of a text: the pieces between its spaces, in order.
pub(crate) fn words_of(alloc: Global, text: &str) -> Result<Vec<String>, AllocError>
    ensures some { IfOk result (λ words. 0 < length words.items) }
    ensures words { IfOk result (λ words. map string_bytes words.items ≡ between_spaces text.now) }
{
    let pieces = pieces_of(alloc, text)?;
    strings_of(alloc, pieces.as_slice())
}
