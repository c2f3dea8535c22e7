//! The answer on a line of a solution's head.

ghost use Rattle.std.specs.Prelude.{◌≡◌, ⊤};
ghost use Rattle.win_commands.specs.Text.{answer_at, answer_of};

use certificate_text::{Field, behind};
use std::alloc::AllocError;

/// Whether the word is `yes`, or `None` if it is neither `yes` nor `no`.
fn answer_of(word: &[u8]) -> Option<bool>
    ensures { result ≡ answer_of word.now }
{
    if word == b"yes".as_slice() {
        Some(true)
    } else if word == b"no".as_slice() {
        Some(false)
    } else {
        None
    }
}

/// The answer that the fourth line claims.
fn answer_at(line: &[u8]) -> Option<bool>
    ensures { result ≡ answer_at line.now }
{
    let rest = behind(line, b"answer ")?;
    answer_of(rest)
}

/// The answer of a solution.
#[derive(Clone, Copy)]
pub(crate) struct AnswerField;

impl Field for AnswerField {
    type Value = bool;

    ghost at = { λ _ line. answer_at line };

    ghost holds = { λ _ _. ⊤ };

    fn read(&self, line: &[u8]) -> Result<Option<bool>, AllocError> {
        Ok(answer_at(line))
    }
}
