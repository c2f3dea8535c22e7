//! Written lists of legal moves.

ghost use Rattle.std.specs.Prelude.{◌≡◌, ◌<◌, ◌∷◌, ◌++◌, length, map, IfOk, OnOk, if◌then◌else◌};
ghost use Rattle.hive_model.specs.Boards.{IsBoard};
ghost use Rattle.hive_model.specs.Denotes.{text as text_of};
ghost use Rattle.hive_model.specs.Stack.{level_of};
ghost use Rattle.hive_model.specs.declared.places.Move.{Move as AnyMove};
ghost use Rattle.hive_model.specs.Lists.{IsOn};
ghost use Rattle.move_text.specs.Moves.{IsMoveWithin};
ghost use Rattle.uhp_session.specs.Answers.{joined};

use hive_model::{Board, MoveStack, ReplyText};
use move_text::write_move;
use std::alloc::{AllocError, Global};

/// Appends a part, after a semicolon if it is not the first. If memory runs out, an initial part of
/// these was appended.
fn push_part(text: &mut ReplyText, is_first: bool, part: &[u8]) -> Result<(), AllocError>
    ensures { OnOk result (text.new ≡ (if is_first then text.old ++ part.now else text.old ++ 59
        ∷ part.now)) }
{
    if !is_first {
        text.push(b';')?;
    }
    text.push_all(part)
}

/// The moves of the first level of a stack, each in its one spelling on the board, joined by
/// semicolons.
///
/// # Errors
///
/// Memory runs out.
pub fn joined_moves<B: Board>(
    alloc: Global,
    board: &B,
    stack: &MoveStack,
) -> Result<ReplyText, AllocError>
    requires sound { IsBoard (B.stacks board.now) }
    requires level { 0 < length stack.now.lists }
    requires within { (m : AnyMove) → IsOn (level_of stack.now 0) m → IsMoveWithin m }
    ensures { IfOk result (λ r. r ≡ joined (map (text_of (B.stacks board.now))
        (level_of stack.now 0))) }
{
    let mut text = ReplyText::new(alloc);
    for i in 0..stack.level_len(0) {
        let written = write_move(board, stack.get(0, i));
        push_part(&mut text, i == 0, written.as_bytes())?;
    }
    Ok(text)
}
