//! Writes the head of a certificate and the lines after it.

ghost use Rattle.std.specs.Prelude.{◌≡◌, ◌++◌, codes, decimal, OnOk, IfOk};
ghost use Rattle.std.specs.Fmt.{signed_decimal};
ghost use Rattle.hive_model.specs.Lists.{IsOn};
ghost use Rattle.hive_model.specs.Legal.{moves};
ghost use Rattle.hive_model.specs.Games.{IsGame};
ghost use Rattle.hive_model.specs.Histories.{position};
ghost use Rattle.hive_model.specs.Denotes.{text as text_of};
ghost use Rattle.certificate_text.specs.Text.{head_text, index_line, written_line};

use arrayvec::ArrayString;
use certificate_walks::Claim;
use game_text::write_game;
use hive_model::{Game, Move, ReplyText};
use itoa::Buffer;
use move_text::write_move;
use std::alloc::{AllocError, Global};

/// Appends a line: a word and a field.
///
/// # Errors
///
/// Out of memory.
pub fn push_line(text: &mut ReplyText, word: &[u8], field: &[u8]) -> Result<(), AllocError>
    ensures { OnOk result (text.new ≡ text.old ++ written_line (word.now ++ field.now)) }
{
    text.push_all(word)?;
    text.push_all(field)?;
    text.push(b'\n')
}

/// Appends a line: a word and a number.
///
/// # Errors
///
/// Out of memory.
pub fn push_number(text: &mut ReplyText, word: &[u8], number: u64) -> Result<(), AllocError>
    ensures { OnOk result (text.new ≡ text.old ++ written_line (word.now ++ decimal number)) }
{
    let mut buffer = Buffer::new();
    push_line(text, word, buffer.format(number).as_bytes())
}

/// Appends a line: a word and a legal move.
///
/// # Errors
///
/// Out of memory.
pub fn push_move<G: Game>(
    text: &mut ReplyText,
    word: &[u8],
    game: &G,
    m: Move,
) -> Result<(), AllocError>
    requires { IsOn (moves (position (G.history game.now))) m }
    ensures line { OnOk result (text.new ≡ text.old
        ++ written_line (word.now ++ text_of (position (G.history game.now)).board m)) }
    ensures game { IsGame (G.history game.now).game_type (G.history game.now).made }
{
    game.lemma_sound();
    let written = write_move(game, m);
    push_line(text, word, written.as_str().as_bytes())
}

/// Appends the line of a value.
fn push_value(text: &mut ReplyText, value: i32) -> Result<(), AllocError>
    ensures { OnOk result (text.new ≡ text.old
        ++ written_line (codes "value " ++ signed_decimal value)) }
{
    let mut buffer = Buffer::new();
    push_line(text, b"value ", buffer.format(value).as_bytes())
}

/// The five lines of a certificate's head, with this version. They claim that a legal move of the
/// game is the best one.
///
/// # Errors
///
/// Out of memory.
pub fn write_head<G: Game + Drop>(
    alloc: Global,
    game: &G,
    version: u32,
    claim: &Claim,
) -> Result<ReplyText, AllocError>
    requires { IsOn (moves (position (G.history game.now))) claim.now.best }
    ensures head { IfOk result (λ t. t ≡ head_text version
        (G.history game.now).game_type (G.history game.now).made
        claim.now.depth claim.now.best claim.now.value) }
    ensures game { IfOk result (λ t. IsGame (G.history game.now).game_type
        (G.history game.now).made) }
{
    let mut text = ReplyText::new(alloc);
    push_number(&mut text, b"hive-certificate ", u64::from(version))?;
    write_game(alloc, game, &mut text)?;
    text.push(b'\n')?;
    push_number(&mut text, b"depth ", u64::from(claim.depth))?;
    push_move(&mut text, b"move ", game, claim.best)?;
    push_value(&mut text, claim.value)?;
    Ok(text)
}

/// An index on a line of its own.
pub fn index_line(index: u32) -> ArrayString<16>
    ensures { result.bytes ≡ index_line index }
{
    let mut line = ArrayString::new();
    let mut buffer = Buffer::new();
    line.push_str(buffer.format(index));
    line.push_str("\n");
    line
}
