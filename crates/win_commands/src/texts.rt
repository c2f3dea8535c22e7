//! Writes the head of a solution.

ghost use Rattle.std.specs.Prelude.{◌≡◌, ◌++◌, codes, OnOk, IfOk};
ghost use Rattle.certificate_text.specs.Text.{written_line};
ghost use Rattle.win_commands.specs.Text.{answer_word, head_text};

use certificate_text::{push_line, push_number};
use game_text::write_game;
use hive_model::{Game, ReplyText};
use std::alloc::{AllocError, Global};

/// Appends the line of the answer.
fn push_answer(text: &mut ReplyText, answer: bool) -> Result<(), AllocError>
    ensures { OnOk result (text.new
        ≡ text.old ++ written_line (codes "answer " ++ answer_word answer)) }
{
    if answer {
        push_line(text, b"answer ", b"yes")
    } else {
        push_line(text, b"answer ", b"no")
    }
}

/// The four lines of the head of a solution for the game.
pub(crate) fn head_of<G: Game + Drop>(
    alloc: Global,
    game: &G,
    plies: u32,
    answer: bool,
) -> Result<ReplyText, AllocError>
    ensures { IfOk result (λ t. t
        ≡ head_text (G.history game.now).game_type (G.history game.now).made plies answer) }
{
    let mut text = ReplyText::new(alloc);
    push_line(&mut text, b"hive-solution ", b"1")?;
    write_game(alloc, game, &mut text)?;
    text.push(b'\n')?;
    push_number(&mut text, b"plies ", u64::from(plies))?;
    push_answer(&mut text, answer)?;
    Ok(text)
}
