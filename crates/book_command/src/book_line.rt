//! The line that a book writes.

ghost use Rattle.std.specs.Prelude.{◌≡◌, ◌++◌, ◌∷◌, List, decimal, IfOk};
ghost use Rattle.hive_model.specs.Histories.{position};
ghost use Rattle.hive_model.specs.Denotes.{text as text_of};
ghost use Rattle.hive_model.specs.Legal.{moves};
ghost use Rattle.hive_model.specs.Lists.{IsOn};
ghost use Rattle.opening_book.specs.Book.{IsTally, BookGame};
ghost use Rattle.book_command.specs.Text.{book_line, IsLegalHere, IsLineOf};

use command_runs::line_for;
use hive_model::{Game, Move, ReplyText};
use itoa::Buffer;
use move_text::write_move;
use opening_book::MoveTally;
use std::alloc::{AllocError, Global};

/// A legal move as written on the board of the position, a space, and how often it was made.
fn move_field<G: Game>(
    alloc: Global,
    game: &G,
    best: Move,
    count: u64,
) -> Result<ReplyText, AllocError>
    requires { IsOn (moves (position (G.history game.now))) best }
    ensures { IfOk result (λ t.
        t ≡ text_of (position (G.history game.now)).board best ++ (32 ∷ decimal count)) }
{
    game.lemma_sound();
    let written = write_move(game, best);
    let mut buffer = Buffer::new();
    let mut text = ReplyText::new(alloc);
    text.push_all(written.as_str().as_bytes())?;
    text.push(b' ')?;
    text.push_all(buffer.format(count).as_bytes())?;
    Ok(text)
}

/// The line that names the move, or says that there is none, with its LF.
fn line_of<G: Game>(
    alloc: Global,
    game: &G,
    found: Option<(Move, u64)>,
) -> Result<ReplyText, AllocError>
    requires { IsLegalHere (position (G.history game.now)) found }
    ensures { IfOk result (λ t. t ≡ book_line (position (G.history game.now)).board found) }
{
    match found {
        Some((best, count)) => {
            let field = move_field(alloc, game, best, count)?;
            line_for(alloc, b"book ", field.items())
        }
        None => line_for(alloc, b"book ", b"none"),
    }
}

/// The line of the book for the game's position, whose moves were counted over some games.
pub(crate) fn book_line<G: Game>(
    alloc: Global,
    game: &G,
    tally: &MoveTally,
) -> Result<ReplyText, AllocError>
    requires { (games : List BookGame) × IsTally (position (G.history game.now)) games tally.now }
    ensures { (games : List BookGame) → IsTally (position (G.history game.now)) games tally.now
        → IfOk result (λ t. IsLineOf (position (G.history game.now)) games t) }
{
    line_of(alloc, game, tally.best())
}
