//! The replay that the words ask for.
ghost use Rattle.std.specs.Prelude.{◌≡◌, Bool, Some, IfOk, IfSome};
ghost use Rattle.command_words.specs.Words.{AreReplayWords};

use crate::setup::rule_of;
use option_words::options_of;
use std::alloc::{AllocError, Global};

/// Whether the games are replayed with the rule of third repetition on: `replay`, alone or with the
/// option `repetition`. It is `None` if the words ask for no replay. The only error is that memory
/// runs out before this is known.
pub(crate) fn replay_of(alloc: Global, words: &[String]) -> Result<Option<bool>, AllocError>
    ensures found { IfOk result (λ o. IfSome o (λ r. AreReplayWords words.now r)) }
    ensures only { IfOk result (λ o. (r : Bool) → AreReplayWords words.now r → o ≡ Some r) }
{
    let Some(given) = options_of(alloc, words, "replay", &["repetition"])? else {
        return Ok(None);
    };
    Ok(rule_of(given.value(0)))
}
