//! Lines that are kept.
ghost use Rattle.std.specs.Prelude.{◌≡◌, IfOk};

use hive_model::LineText;
use std::alloc::{AllocError, Global};

/// A copy of these bytes, as a line that is kept.
///
/// # Errors
///
/// Out of memory.
pub fn copy_line(alloc: Global, bytes: &[u8]) -> Result<LineText, AllocError>
    ensures { IfOk result (λ t. t ≡ bytes.now) }
{
    let mut kept = LineText::new(alloc);
    kept.push_all(bytes)?;
    Ok(kept)
}
