//! What is handed to a session, and what it answers.

ghost use Rattle.std.specs.Prelude.{◌≡◌, ◌≤◌, length};
ghost use Rattle.uhp_session.specs.Answers.{or_base};
ghost use Rattle.io_edge.specs.Lines.{greatest_line};

use hive_model::ReplyText;

/// A line of the input, at most 65,536 bytes, or the mark that it is longer.
#[derive(Clone, Copy)]
pub enum LineIn<'a> {
    Text(&'a [u8]),
    TooLong,
}

/// The text of a reply, including its last line `ok`, or none if the run ends.
#[derive(Drop)]
pub enum Reply {
    Text(ReplyText),
    Exit,
}

/// The text of a new game. An empty text stands for the base game.
pub(crate) fn or_base(text: &[u8]) -> &[u8]
    requires { length text.now ≤ greatest_line }
    ensures value { result.now ≡ or_base text.now }
    ensures short { length result.now ≤ greatest_line }
{
    if text.is_empty() { b"Base" } else { text }
}
