//! The lines of a reply.

ghost use Rattle.std.specs.Prelude.{◌≡◌, ◌⊎◌, [], ◌∷◌, ◌++◌, OnOk, OnErr};

use hive_model::ReplyText;
use std::alloc::AllocError;

/// Appends the line and an LF to the reply. If memory runs out, the reply is unchanged, or it has
/// gained the line without its LF.
pub fn write_reply(text: &mut ReplyText, line: &[u8]) -> Result<(), AllocError>
    ensures written { OnOk result (text.new ≡ text.old ++ (line.now ++ 10 ∷ [])) }
    ensures refused { OnErr result ((text.new ≡ text.old) ⊎ (text.new ≡ text.old ++ line.now)) }
{
    text.push_all(line)?;
    text.push(b'\n')?;
    Ok(())
}
