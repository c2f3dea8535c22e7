//! The lines that are sent, and those that are written.
ghost use Rattle.std.specs.Prelude.{
  ◌≡◌,
  ◌≤◌,
  ◌++◌,
  ◌∷◌,
  [],
  length,
  map,
  codes,
  decimal,
  IfOk,
  OnOk,
};
ghost use Rattle.hive_model.specs.Histories.{position};
ghost use Rattle.hive_model.specs.Lists.{IsOn};
ghost use Rattle.hive_model.specs.Legal.{moves};
ghost use Rattle.hive_model.specs.Denotes.{text};
ghost use Rattle.move_text.specs.Moves.{IsMoveWithin};
ghost use Rattle.audit_core.specs.Texts.{
  answered_text,
  asked_text,
  behind_space,
  shortened,
  begin_line,
  begins_by,
  play_line,
  undo_line,
  is_ok,
  is_refusal,
  load_line,
  with_line,
  shown,
  text_behind,
  fault_word,
  numbered,
  finding_end,
  finding_line,
  last_line,
};

use crate::findings::{Fault, Finding};
use game_text::write_game;
use hive_model::{Game, GameType, LineText, Move, ReplyText};
use itoa::Buffer;
use move_text::{type_text, write_move};
use std::alloc::{AllocError, Global};

/// The most bytes of a line that a finding names whole.
const MOST_NAMED: usize = 68;

/// A copy of these bytes.
pub(crate) fn copy_text(alloc: Global, bytes: &[u8]) -> Result<LineText, AllocError>
    ensures { IfOk result (λ t. t ≡ bytes.now) }
{
    let mut kept = LineText::new(alloc);
    kept.push_all(bytes)?;
    Ok(kept)
}

/// A text with one more line. An LF separates two lines.
pub(crate) fn text_with(
    alloc: Global,
    begun: bool,
    text: &[u8],
    line: &[u8],
) -> Result<LineText, AllocError>
    ensures { IfOk result (λ t. t ≡ with_line begun text.now line.now) }
{
    let mut kept = LineText::new(alloc);
    if begun {
        kept.push_all(text)?;
        kept.push(b'\n')?;
    }
    kept.push_all(line)?;
    Ok(kept)
}

/// The text of a move with a near destination.
pub(crate) fn near_text<G: Game>(alloc: Global, game: &G, m: Move) -> Result<LineText, AllocError>
    requires { IsMoveWithin m }
    ensures { IfOk result (λ t. t ≡ text (position (G.history game.now)).board m) }
{
    game.lemma_sound();
    copy_text(alloc, write_move(game, m).as_bytes())
}

/// The text of a legal move.
pub(crate) fn move_text<G: Game>(alloc: Global, game: &G, m: Move) -> Result<LineText, AllocError>
    requires { IsOn (moves (position (G.history game.now))) m }
    ensures { IfOk result (λ t. t ≡ text (position (G.history game.now)).board m) }
{
    game.lemma_sound();
    near_text(alloc, game, m)
}

/// The line that asks for a new game.
pub(crate) fn begin_line(alloc: Global, game_type: GameType) -> Result<ReplyText, AllocError>
    ensures { IfOk result (λ t. t ≡ begin_line game_type) }
{
    let mut line = ReplyText::new(alloc);
    line.push_all(b"newgame ")?;
    line.push_all(type_text(game_type).as_bytes())?;
    line.push(b'\n')?;
    Ok(line)
}

/// Appends the line that plays a move with this text. If memory runs out, a prefix of it was
/// appended.
fn push_play(line: &mut ReplyText, text: &[u8]) -> Result<(), AllocError>
    ensures { OnOk result (line.new ≡ line.old ++ (codes "play " ++ (text.now ++ 10 ∷ []))) }
{
    line.push_all(b"play ")?;
    line.push_all(text)?;
    line.push(b'\n')
}

/// The line that plays a move with this text.
fn line_of(alloc: Global, text: &[u8]) -> Result<ReplyText, AllocError>
    ensures { IfOk result (λ t. t ≡ codes "play " ++ (text.now ++ 10 ∷ [])) }
{
    let mut line = ReplyText::new(alloc);
    push_play(&mut line, text)?;
    Ok(line)
}

/// The line that plays a legal move.
pub(crate) fn play_line<G: Game>(alloc: Global, game: &G, m: Move) -> Result<ReplyText, AllocError>
    requires { IsOn (moves (position (G.history game.now))) m }
    ensures { IfOk result (λ t. t ≡ play_line (position (G.history game.now)) m) }
{
    match m {
        Move::Pass => copy_text(alloc, b"pass\n"),
        Move::To { .. } => {
            let text = move_text(alloc, game, m.again())?;
            line_of(alloc, text.items())
        }
    }
}

/// The line that plays a move with a near destination.
pub(crate) fn try_line<G: Game>(alloc: Global, game: &G, m: Move) -> Result<ReplyText, AllocError>
    requires { IsMoveWithin m }
    ensures { IfOk result (λ t. t ≡ play_line (position (G.history game.now)) m) }
{
    match m {
        Move::Pass => copy_text(alloc, b"pass\n"),
        Move::To { .. } => {
            let text = near_text(alloc, game, m.again())?;
            line_of(alloc, text.items())
        }
    }
}

/// The line that loads a game by its game string.
pub(crate) fn load_line<G: Game + Drop>(alloc: Global, game: &G) -> Result<ReplyText, AllocError>
    ensures { let now = G.history game.now in
        IfOk result (λ t. t ≡ load_line now.game_type now.made) }
{
    let mut line = ReplyText::new(alloc);
    line.push_all(b"newgame ")?;
    write_game(alloc, game, &mut line)?;
    line.push(b'\n')?;
    Ok(line)
}

/// The line that takes this number of plies back.
pub(crate) fn undo_line(alloc: Global, plies: u32) -> Result<ReplyText, AllocError>
    ensures { IfOk result (λ t. t ≡ undo_line plies) }
{
    let mut line = ReplyText::new(alloc);
    line.push_all(b"undo ")?;
    write_number(&mut line, u64::from(plies))?;
    line.push(b'\n')?;
    Ok(line)
}

/// Whether a line is `ok`.
pub(crate) fn is_ok(line: &[u8]) -> bool
    ensures { result ≡ is_ok line.now }
{
    line == b"ok".as_slice()
}

/// Whether a reply begins with `err`.
fn is_error(reply: &[u8]) -> bool
    ensures { result ≡ begins_by (codes "err") reply.now }
{
    reply == b"err".as_slice()
        || reply.starts_with(b"err ".as_slice())
        || reply.starts_with(b"err\n".as_slice())
}

/// Whether a reply begins with `invalidmove`.
fn is_invalid(reply: &[u8]) -> bool
    ensures { result ≡ begins_by (codes "invalidmove") reply.now }
{
    reply == b"invalidmove".as_slice()
        || reply.starts_with(b"invalidmove ".as_slice())
        || reply.starts_with(b"invalidmove\n".as_slice())
}

/// Whether a reply refuses what was sent.
pub(crate) fn is_refusal(reply: &[u8]) -> bool
    ensures { result ≡ is_refusal reply.now }
{
    is_error(reply) || is_invalid(reply)
}

/// A byte of an engine as it is written.
fn shown(byte: u8) -> u8
    ensures { result ≡ shown byte }
{
    if byte < 32 || byte > 126 { b'?' } else { byte }
}

/// Appends the bytes of a text as they are written.
fn write_shown(out: &mut ReplyText, bytes: &[u8]) -> Result<(), AllocError>
    ensures { OnOk result (out.new ≡ out.old ++ map shown bytes.now) }
{
    for byte in bytes {
        out.push(shown(*byte))?;
    }
    Ok(())
}

/// Appends a text of the engine after a space, if it is not empty.
fn write_behind(out: &mut ReplyText, bytes: &[u8]) -> Result<(), AllocError>
    ensures { OnOk result (out.new ≡ out.old ++ text_behind bytes.now) }
{
    if bytes.is_empty() {
        return Ok(());
    }
    out.push(b' ')?;
    write_shown(out, bytes)
}

/// Appends a line as a finding names it, with a long one cut. If memory runs out, a prefix of that
/// was appended.
fn push_shortened(text: &mut LineText, line: &[u8]) -> Result<(), AllocError>
    ensures { OnOk result (text.new ≡ text.old ++ shortened line.now) }
{
    if line.len() > MOST_NAMED {
        let (named, _) = line.split_at(MOST_NAMED);
        text.push_all(named)?;
        return text.push_all(b"..");
    }
    text.push_all(line)
}

/// What a finding says of the line that was sent, its LF included. It is empty if none was sent.
pub(crate) fn asked_text(alloc: Global, line: &[u8]) -> Result<LineText, AllocError>
    ensures { IfOk result (λ t. t ≡ asked_text line.now) }
{
    let mut text = LineText::new(alloc);
    if line.is_empty() {
        return Ok(text);
    }
    let (line, _) = line.split_at(line.len() - 1);
    text.push_all(b"asked ")?;
    push_shortened(&mut text, line)?;
    Ok(text)
}

/// Appends a reply after a space, if it is not empty. If memory runs out, a prefix of that was
/// appended.
fn push_reply(text: &mut LineText, reply: &[u8]) -> Result<(), AllocError>
    ensures { OnOk result (text.new ≡ text.old ++ behind_space reply.now) }
{
    if reply.is_empty() {
        return Ok(());
    }
    text.push(b' ')?;
    text.push_all(reply)
}

/// What a finding says of a reply to the line that was sent, its LF included.
pub(crate) fn answered_text(
    alloc: Global,
    asked: &[u8],
    reply: &[u8],
) -> Result<LineText, AllocError>
    ensures { IfOk result (λ t. t ≡ answered_text asked.now reply.now) }
{
    let mut text = asked_text(alloc, asked)?;
    text.push_all(b" answered")?;
    push_reply(&mut text, reply)?;
    Ok(text)
}

/// Appends a number.
fn write_number(out: &mut ReplyText, number: u64) -> Result<(), AllocError>
    ensures { OnOk result (out.new ≡ out.old ++ decimal number) }
{
    let mut buffer = Buffer::new();
    out.push_all(buffer.format(number).as_bytes())
}

/// Appends a word, and a number after it.
fn write_numbered(out: &mut ReplyText, word: &[u8], number: u64) -> Result<(), AllocError>
    ensures { OnOk result (out.new ≡ out.old ++ numbered word.now number) }
{
    out.push_all(word)?;
    write_number(out, number)
}

/// Appends the word of a fault.
fn write_word(out: &mut ReplyText, fault: Fault) -> Result<(), AllocError>
    ensures { OnOk result (out.new ≡ out.old ++ fault_word fault) }
{
    match fault {
        Fault::Missing => out.push_all(b"missing"),
        Fault::Extra => out.push_all(b"extra"),
        Fault::Twice => out.push_all(b"twice"),
        Fault::Unreadable => out.push_all(b"unreadable"),
        Fault::NotTheGame => out.push_all(b"string"),
        Fault::Accepted => out.push_all(b"accepted"),
        Fault::Ended => out.push_all(b"ended"),
        Fault::Late => out.push_all(b"late"),
        Fault::Broke => out.push_all(b"broke"),
    }
}

/// Appends what is wrong, and an LF.
fn write_end(out: &mut ReplyText, finding: &Finding) -> Result<(), AllocError>
    ensures { OnOk result (out.new ≡ out.old ++ finding_end finding.now) }
{
    out.push(b' ')?;
    write_word(out, finding.fault)?;
    write_behind(out, finding.text.items())?;
    out.push(b'\n')
}

/// Appends the line of a finding in the game with this number, counted from 1.
pub(crate) fn write_finding<G: Game + Drop>(
    alloc: Global,
    out: &mut ReplyText,
    number: u64,
    game: &G,
    finding: &Finding,
) -> Result<(), AllocError>
    ensures { let now = G.history game.now in OnOk result (out.new
        ≡ out.old ++ finding_line number now.game_type now.made finding.now) }
{
    write_numbered(out, b"game ", number)?;
    write_numbered(out, b" ply ", u64::from(game.plies()))?;
    out.push(b' ')?;
    write_game(alloc, game, out)?;
    write_end(out, finding)
}

/// Appends the last line: the numbers of games, of right lists, of moves on them, and of findings.
pub(crate) fn write_last(
    out: &mut ReplyText,
    games: u64,
    positions: u64,
    choices: u64,
    findings: u64,
) -> Result<(), AllocError>
    ensures { OnOk result (out.new ≡ out.old ++ last_line games positions choices findings) }
{
    write_numbered(out, b"audited ", games)?;
    write_numbered(out, b" games ", positions)?;
    write_numbered(out, b" positions ", choices)?;
    write_numbered(out, b" moves, ", findings)?;
    out.push_all(b" findings\n")
}
