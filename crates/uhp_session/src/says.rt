//! Replies that consist of a line and the line `ok`.

ghost use Rattle.std.specs.Prelude.{◌≡◌, [], ◌∷◌, ◌++◌, Some, codes, IfOk};
ghost use Rattle.uhp_session.specs.Answers.{text_of, ended};

use crate::lines::Reply;
use hive_model::ReplyText;
use std::alloc::{AllocError, Global};

/// Ends the last line of the text, and adds the line `ok`.
pub(crate) fn close(lines: ReplyText) -> Result<Reply, AllocError>
    ensures { IfOk result (λ r. text_of r ≡ Some (lines ++ 10 ∷ (codes "ok" ++ 10 ∷ []))) }
{
    let mut text = lines;
    text.push_all(b"\nok\n")?;
    Ok(Reply::Text(text))
}

/// The line, and `ok`.
pub(crate) fn say(alloc: Global, line: &[u8]) -> Result<Reply, AllocError>
    ensures { IfOk result (λ r. text_of r ≡ Some (ended (line.now ∷ (codes "ok" ∷ [])))) }
{
    let mut text = ReplyText::new(alloc);
    text.push_all(line)?;
    close(text)
}
