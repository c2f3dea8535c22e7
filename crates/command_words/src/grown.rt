//! The two numbers of a made game.
ghost use Rattle.std.specs.Prelude.{◌≡◌, ℕ, Some, IfOk, IfSome};
ghost use Rattle.command_words.specs.Words.{AreGrowWords, AreGrowth};

use move_text::read_number;
use option_words::options_of;
use std::alloc::{AllocError, Global};

/// The seed of a game, and its greatest number of plies.
#[derive(Clone, Copy)]
pub(crate) struct Growth {
    pub(crate) seed: u64,
    pub(crate) plies: u32,
}

/// The seed and the plies of two texts, if they are numbers in their ranges.
fn growth_at(seed: &str, plies: &str) -> Option<Growth>
    ensures found { IfSome result (λ g. AreGrowth seed.now plies.now g.seed g.plies) }
    ensures only { (s n : ℕ) → AreGrowth seed.now plies.now s n → result
        ≡ Some (record { seed = s; plies = n }) }
{
    let seed = read_number(seed.as_bytes(), 0, u64::MAX)?;
    let plies = read_number(plies.as_bytes(), 1, 1000)?;
    Some(Growth {
        seed,
        plies: plies as u32,
    })
}

/// The seed and the plies that the words give: `grow` and the options `seed` and `plies`, both
/// required. It is `None` if the words do not have this form. The only error is that memory runs
/// out before this is known.
pub(crate) fn growth_of(alloc: Global, words: &[String]) -> Result<Option<Growth>, AllocError>
    ensures found { IfOk result (λ o. IfSome o (λ g. AreGrowWords words.now g.seed g.plies)) }
    ensures only { IfOk result (λ o. (s n : ℕ) → AreGrowWords words.now s n → o
        ≡ Some (record { seed = s; plies = n })) }
{
    let Some(given) = options_of(alloc, words, "grow", &["seed", "plies"])? else {
        return Ok(None);
    };
    let Some(seed) = given.value(0) else {
        return Ok(None);
    };
    let Some(plies) = given.value(1) else {
        return Ok(None);
    };
    Ok(growth_at(seed, plies))
}
