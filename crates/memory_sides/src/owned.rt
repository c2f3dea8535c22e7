//! Words as owned texts.
ghost use Rattle.std.specs.Prelude.{◌≡◌, length, map, string_bytes, IfOk};

use std::alloc::{AllocError, Global};

/// Owned texts with these bytes, in order.
pub fn owned_words(alloc: Global, words: &[&str]) -> Result<Vec<String>, AllocError>
    ensures bytes { IfOk result (λ owned. map string_bytes owned.items
        ≡ map (λ word. word.now) words.now) }
    ensures count { IfOk result (λ owned. length owned.items ≡ length words.now) }
{
    let mut owned = Vec::new(alloc);
    for word in words {
        owned.push(String::from_str(alloc, *word)?)?;
    }
    Ok(owned)
}
