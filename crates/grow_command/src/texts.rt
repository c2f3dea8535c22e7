//! The eight lines about a made game.

ghost use Rattle.std.specs.Prelude.{◌≡◌, ◌++◌, codes, OnOk, IfOk};
ghost use Rattle.hive_model.specs.Histories.{position};
ghost use Rattle.hive_model.specs.Strings.{string};
ghost use Rattle.grow_game.specs.Growing.{TellsBest};
ghost use Rattle.certificate_text.specs.Text.{written_line};
ghost use Rattle.grow_command.specs.Text.{best_field, lines_text, lines_about};

use certificate_text::{push_line, push_move, push_number};
use game_text::write_game;
use grow_game::Grown;
use hive_model::{Best, Game, ReplyText};
use move_text::{state_text, type_text};
use std::alloc::{AllocError, Global};

/// Appends the line of the best move, which says `none` if there is none.
fn push_best<G: Game>(text: &mut ReplyText, game: &G, best: Option<Best>) -> Result<(), AllocError>
    requires { TellsBest (position (G.history game.now)) best }
    ensures { OnOk result (text.new
        ≡ text.old ++ written_line (codes "best " ++ best_field (position (G.history game.now)))) }
{
    match best {
        Some(found) => push_move(text, b"best ", game, found.best),
        None => push_line(text, b"best ", b"none"),
    }
}

/// Appends the line of the game in its written form.
fn push_game<G: Game + Drop>(alloc: Global, out: &mut ReplyText, game: &G) -> Result<(), AllocError>
    ensures { OnOk result (out.new ≡ out.old ++ written_line
        (codes "game " ++ string (G.history game.now).game_type (G.history game.now).made)) }
{
    out.push_all(b"game ")?;
    write_game(alloc, game, out)?;
    out.push(b'\n')
}

/// The eight lines about a game that this seed made.
pub(crate) fn text_about<G: Game + Drop>(
    alloc: Global,
    seed: u64,
    grown: &Grown<G>,
) -> Result<ReplyText, AllocError>
    requires { TellsBest (position (G.history grown.now.game)) grown.now.best }
    ensures { let history = G.history grown.now.game in
        IfOk result (λ t. t ≡ lines_text
        (lines_about seed history.game_type history.made grown.now.moves grown.now.undone)) }
{
    let game = &grown.game;
    let mut text = ReplyText::new(alloc);
    push_number(&mut text, b"seed ", seed)?;
    push_line(
        &mut text,
        b"type ",
        type_text(game.game_type()).as_str().as_bytes(),
    )?;
    push_number(&mut text, b"plies ", u64::from(game.plies()))?;
    push_line(
        &mut text,
        b"state ",
        state_text(game.state()).as_str().as_bytes(),
    )?;
    push_number(&mut text, b"moves ", grown.moves)?;
    push_number(&mut text, b"undone ", u64::from(grown.undone))?;
    push_best(&mut text, game, grown.best)?;
    push_game(alloc, &mut text, game)?;
    Ok(text)
}
