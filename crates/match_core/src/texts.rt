//! The lines that are sent, and the move that a line denotes.
ghost use Rattle.std.specs.Prelude.{◌≡◌, ◌+◌, ◌≤◌, ◌++◌, length, vec_len, vec_capacity, IfOk};
ghost use Rattle.std.specs.Prelude.{OnOk};
ghost use Rattle.hive_model.specs.Histories.{position};
ghost use Rattle.hive_model.specs.Legal.{moves};
ghost use Rattle.hive_model.specs.Lists.{IsOn};
ghost use Rattle.io_edge.specs.Lines.{greatest_line};
ghost use Rattle.match_core.specs.Setups.{setup_from};
ghost use Rattle.match_core.specs.Keeps.{IsLevel};
ghost use Rattle.match_core.specs.Texts.{read_of, begin_line, begin_text, ask_line};
ghost use Rattle.match_core.specs.Texts.{tell_line, most_sent};

use crate::setup::{Level, Setup};
use game_text::write_game;
use hive_model::{Game, Move, ReplyText};
use itoa::Buffer;
use move_text::{MoveFault, read_move, time_text, type_text, write_move};
use std::alloc::{AllocError, Global};

/// The move that a line denotes on the game's board, or why it denotes none.
#[tactic(auto, unfolding(crate::specs::Texts::read_of))]
pub(crate) fn read_line<G: Game>(game: &G, line: &[u8]) -> Result<Move, MoveFault>
    requires { length line.now ≤ greatest_line }
    ensures { result ≡ read_of (G.history game.now).game_type (position (G.history game.now)).board
        line.now }
{
    game.lemma_sound();
    read_move(game.game_type(), game, line)
}

/// Appends bytes; there is room for them.
fn put(text: &mut Vec<u8>, bytes: &[u8])
    requires short { vec_len text.old + length bytes.now ≤ most_sent }
    requires room { most_sent ≤ vec_capacity text.old }
    ensures text { text.new.items ≡ text.old.items ++ bytes.now }
    ensures len { vec_len text.new ≡ vec_len text.old + length bytes.now }
    ensures room { most_sent ≤ vec_capacity text.new }
{
    let _ = text.extend_from_slice(bytes);
}

/// Appends the game to begin with: only its type if it is the opening, otherwise its string.
fn push_game<G: Game + Drop>(
    alloc: Global,
    setup: Setup,
    game: &G,
    line: &mut ReplyText,
) -> Result<(), AllocError>
    requires { (G.history game.now).game_type ≡ setup.game_type }
    ensures { OnOk result (line.new ≡ line.old ++ begin_text setup.game_type
        (G.history game.now).made) }
{
    if game.plies() == 0 {
        line.push_all(type_text(setup.game_type).as_bytes())
    } else {
        write_game(alloc, game, line)
    }
}

/// The line that asks an engine to begin a match of this setup with this game.
#[tactic(auto, unfolding(crate::specs::Texts::begin_line))]
pub(crate) fn begin_line<G: Game + Drop>(
    alloc: Global,
    setup: Setup,
    game: &G,
) -> Result<ReplyText, AllocError>
    requires { (G.history game.now).game_type ≡ setup.game_type }
    ensures { IfOk result (λ t. t ≡ begin_line (setup_from setup (G.history game.now).made)) }
{
    let mut line = ReplyText::new(alloc);
    line.push_all(b"newgame ")?;
    push_game(alloc, setup, game, &mut line)?;
    line.push(b'\n')?;
    Ok(line)
}

#[tactic(auto, unfolding(crate::specs::Texts::ask_line))]
pub(crate) fn write_ask(text: &mut Vec<u8>, level: Level)
    requires level { IsLevel level }
    requires room { most_sent ≤ vec_capacity text.old }
    ensures text { text.new.items ≡ ask_line level }
    ensures room { most_sent ≤ vec_capacity text.new }
{
    text.clear();
    match level {
        Level::Depth { depth } => {
            let mut buffer = Buffer::new();
            put(text, b"bestmove depth ");
            put(text, buffer.format(depth).as_bytes());
            put(text, b"\n");
        }
        Level::Time { budget, margin: _ } => {
            put(text, b"bestmove time ");
            put(text, time_text(budget).as_bytes());
            put(text, b"\n");
        }
    }
}

/// The line that sends a legal move, before it is made.
#[tactic(auto, unfolding(crate::specs::Texts::tell_line))]
pub(crate) fn write_tell<G: Game>(text: &mut Vec<u8>, game: &G, m: Move)
    requires legal { IsOn (moves (position (G.history game.now))) m }
    requires room { most_sent ≤ vec_capacity text.old }
    ensures text { text.new.items ≡ tell_line (position (G.history game.now)) m }
    ensures room { most_sent ≤ vec_capacity text.new }
{
    game.lemma_sound();
    text.clear();
    match m {
        Move::Pass => put(text, b"pass\n"),
        Move::To { .. } => {
            put(text, b"play ");
            put(text, write_move(game, m).as_bytes());
            put(text, b"\n");
        }
    }
}
