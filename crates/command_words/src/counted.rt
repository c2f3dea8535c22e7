//! The counts that the words ask for.
ghost use Rattle.std.specs.Prelude.{◌≡◌, ℕ, Bool, Some, IfOk, IfSome, option_map};
ghost use Rattle.command_words.specs.Words.{AreCountWords, AreCounts};

use crate::setup::{number_or, rule_of};
use move_text::read_number;
use option_words::options_of;
use std::alloc::{AllocError, Global};

/// How many plies are counted, by how many workers, and whether the parts of the count are asked
/// for in place of it.
#[derive(Clone, Copy)]
pub(crate) struct CountAsked {
    pub(crate) plies: u32,
    pub(crate) workers: u32,
    pub(crate) split: bool,
}

/// What is asked for by the texts of the options, if each is one of its option.
fn count_at(plies: &str, workers: Option<&str>, split: Option<&str>) -> Option<CountAsked>
    ensures found { IfSome result (λ c. AreCounts plies.now
        (option_map (λ t. t.now) workers.entry) (option_map (λ t. t.now) split.entry)
        c.plies c.workers c.split) }
    ensures only { (p n : ℕ) (s : Bool) → AreCounts plies.now
        (option_map (λ t. t.now) workers.entry) (option_map (λ t. t.now) split.entry) p n s
        → result ≡ Some (record { plies = p; workers = n; split = s }) }
{
    let plies = read_number(plies.as_bytes(), 1, 8)?;
    let workers = number_or(workers, 1, 16, 1)?;
    let split = rule_of(split)?;
    Some(CountAsked {
        plies: plies as u32,
        workers: workers as u32,
        split,
    })
}

/// The counts that the words ask for: `count` and the options `plies`, which is required,
/// `workers` and `split`. None where they ask for none; an `AllocError` where memory runs out
/// before that is known.
pub(crate) fn count_of(alloc: Global, words: &[String]) -> Result<Option<CountAsked>, AllocError>
    ensures found { IfOk result (λ o. IfSome o (λ c. AreCountWords words.now c.plies c.workers
        c.split)) }
    ensures only { IfOk result (λ o. (p n : ℕ) (s : Bool) → AreCountWords words.now p n s → o
        ≡ Some (record { plies = p; workers = n; split = s })) }
{
    let Some(given) = options_of(alloc, words, "count", &["plies", "workers", "split"])? else {
        return Ok(None);
    };
    let Some(plies) = given.value(0) else {
        return Ok(None);
    };
    Ok(count_at(plies, given.value(1), given.value(2)))
}
