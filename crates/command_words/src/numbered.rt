//! Commands with one option, a number.
ghost use Rattle.std.specs.Prelude.{◌≡◌, ◌<◌, ℕ, Some, length, IfOk, IfSome};
ghost use Rattle.hive_model.specs.Fields.{IsNumberText};
ghost use Rattle.command_words.specs.Words.{AreNumbered};

use move_text::read_number;
use option_words::one_option;
use std::alloc::{AllocError, Global};

/// The number from `least` to `most` that the text spells.
fn small_number(text: &[u8], least: u32, most: u32) -> Option<u32>
    ensures found { IfSome result (λ n. IsNumberText text.now least most n) }
    ensures only { (n : ℕ) → IsNumberText text.now least most n → result ≡ Some n }
{
    Some(read_number(text, least as u64, most as u64)? as u32)
}

/// The number from `least` to `most` that the words give the one option of a command, which is
/// required. It is `None` if the words do not have this form. The only error is that memory runs
/// out before this is known.
pub(crate) fn number_of(
    alloc: Global,
    words: &[String],
    command: &str,
    option: &str,
    least: u32,
    most: u32,
) -> Result<Option<u32>, AllocError>
    requires { 0 < length option.now }
    ensures found { IfOk result (λ o. IfSome o
        (λ n. AreNumbered words.now command.now option.now least most n)) }
    ensures only { IfOk result (λ o. (n : ℕ) → AreNumbered words.now command.now option.now least
        most n → o ≡ Some n) }
{
    let Some(value) = one_option(alloc, words, command, option)? else {
        return Ok(None);
    };
    Ok(small_number(value.as_bytes(), least, most))
}
