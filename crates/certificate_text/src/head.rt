//! The head of a certificate.

ghost use Rattle.std.specs.Prelude.{◌≡◌, ◌≢◌, ◌≤◌, ℕ, List, length, Some, Err, IfOk};
ghost use Rattle.line_feed.specs.Ahead.{ahead_of};
ghost use Rattle.io_edge.specs.Lines.{Line as AnyLine, greatest_line};
ghost use Rattle.hive_model.specs.Games.{IsGame};
ghost use Rattle.game_text.specs.Reading.{game_of};
ghost use Rattle.game_text.specs.declared.faults.GameFault.{GameFault as AnyFault};
ghost use Rattle.certificate_text.specs.Text.{field_in, game_in, head_of};
ghost use Rattle.certificate_text.specs.Taken.{HasRead};
ghost use Rattle.certificate_text.specs.Heads.{
  BreaksOff,
  IsHead,
  Reads,
  ReadsGame,
  ReadsHead,
  TakesLine,
  TakesLines,
};

use crate::fields::{ClaimText, ClaimValue, Field, NumberField};
use game_text::{GameFault, Parsed, read_game};
use hive_model::{Game, GameType, LineText, MoveList};
use io_edge::Source;
use line_feed::{LineAnswer, LineReader};
use std::alloc::Global;

/// The content of a certificate's head: its version, the game, and the claim. The text of the
/// claimed move is not parsed yet.
#[derive(Drop)]
pub struct Head {
    pub version: u32,
    pub game_type: GameType,
    pub moves: MoveList,
    pub claim_text: LineText,
    pub depth: u32,
    pub value: i32,
}

/// Why there is no head.
#[derive(Clone, Copy, Debug, PartialEq, Eq)]
pub enum HeadFault {
    /// The first line that is missing, too long or malformed, counted from 1.
    BadLine { line: u32 },
    /// What is wrong with the second line as a game. It is never that memory ran out.
    BadGame { fault: GameFault },
    /// The source could not be read: its count of failed reads rose.
    ReadFault,
    /// The reader has taken as many bytes as it ever takes.
    InputFull,
    /// Memory ran out.
    Memory,
}

/// Takes the next line, which has this number in the text.
///
/// # Errors
///
/// The line is missing or too long, a read failed, or the reader takes no more.
#[tactic(auto)]
fn next_text<S: Source>(reader: &mut LineReader, source: &mut S, line: u32) -> Result<(), HeadFault>
    ensures told { TakesLine result line reader.new.last (ahead_of reader.old (S.rest source.old))
        (ahead_of reader.new (S.rest source.new)) }
    ensures fits { IfOk result (λ done. length reader.new.last ≤ greatest_line) }
    ensures no_game { (fault : AnyFault) → result ≢ Err (HeadFault.BadGame fault) }
    ensures taken { TakesLines 1 line result reader.old reader.new (S.rest source.old)
        (S.rest source.new) (S.read_faults source.old) (S.read_faults source.new) }
{
    match reader.next_line(source) {
        LineAnswer::Line => Ok(()),
        LineAnswer::TooLong | LineAnswer::End => Err(HeadFault::BadLine { line }),
        LineAnswer::Failed => Err(HeadFault::ReadFault),
        LineAnswer::Full => Err(HeadFault::InputFull),
    }
}

/// Takes the next line, which has this number in the text, and reads a field from it.
///
/// # Errors
///
/// The line is missing, too long or malformed, a read failed, the reader takes no more, or memory
/// ran out.
pub fn read_field<F: Field, S: Source>(
    reader: &mut LineReader,
    source: &mut S,
    line: u32,
    field: &F,
) -> Result<F::Value, HeadFault>
    ensures told { (lines : List AnyLine) → ahead_of reader.old (S.rest source.old) ≡ Some lines
        → Reads 1 result (field_in line (F.at field.now) lines) lines
        (ahead_of reader.new (S.rest source.new)) }
    ensures holds { IfOk result (F.holds field.now) }
    ensures no_game { (fault : AnyFault) → result ≢ Err (HeadFault.BadGame fault) }
    ensures taken { TakesLines 1 line result reader.old reader.new (S.rest source.old)
        (S.rest source.new) (S.read_faults source.old) (S.read_faults source.new) }
{
    next_text(reader, source, line)?;
    match field.read(reader.line()) {
        Ok(Some(value)) => Ok(value),
        Ok(None) => Err(HeadFault::BadLine { line }),
        Err(_) => Err(HeadFault::Memory),
    }
}

/// The game that a line is, played on a new game of the kind G.
///
/// # Errors
///
/// What is wrong with the line as a game, or that memory ran out.
fn line_game<G: Game + Drop>(alloc: Global, line: &[u8]) -> Result<Parsed, HeadFault>
    requires { length line.now ≤ greatest_line }
    ensures read { ReadsGame result (game_of line.now) }
    ensures game { IfOk result (λ g. IsGame g.game_type g.moves × (length g.moves ≤ 5000)) }
    ensures fault { (fault : AnyFault) → result ≡ Err (HeadFault.BadGame fault)
        → fault ≢ GameFault.Memory }
    ensures no_read { result ≢ Err HeadFault.ReadFault }
    ensures no_full { result ≢ Err HeadFault.InputFull }
{
    match read_game::<G>(alloc, line) {
        Ok(game) => Ok(game),
        Err(GameFault::Memory) => Err(HeadFault::Memory),
        Err(fault) => Err(HeadFault::BadGame { fault }),
    }
}

/// Takes the next line, which is the second of the text, and reads it as a game. The game is played
/// on a new one of the kind G.
///
/// # Errors
///
/// The line is missing or too long, it is wrong as a game, a read failed, the reader takes no more,
/// or memory ran out.
pub fn read_game_line<G: Game + Drop, S: Source>(
    alloc: Global,
    reader: &mut LineReader,
    source: &mut S,
) -> Result<Parsed, HeadFault>
    ensures told { (lines : List AnyLine) → ahead_of reader.old (S.rest source.old) ≡ Some lines
        → Reads 1 result (game_in lines) lines (ahead_of reader.new (S.rest source.new)) }
    ensures game { IfOk result (λ g. IsGame g.game_type g.moves × (length g.moves ≤ 5000)) }
    ensures fault { (fault : AnyFault) → result ≡ Err (HeadFault.BadGame fault)
        → fault ≢ GameFault.Memory }
    ensures taken { TakesLines 1 2 result reader.old reader.new (S.rest source.old)
        (S.rest source.new) (S.read_faults source.old) (S.read_faults source.new) }
{
    next_text(reader, source, 2)?;
    line_game::<G>(alloc, reader.line())
}

/// Reads the five lines of a certificate's head, whose version is at most `newest`. The lines are
/// `hive-certificate ` and the version; a game; `depth ` and a number from 1 to 64; `move ` and
/// some text; `value ` and a whole number from -1,000,064 to 1,000,064. The game is played on a new
/// one of the kind G. No line after the first fault is read.
///
/// # Errors
///
/// The first line that is missing, too long or malformed; what is wrong with the second line as a
/// game; a failed read; a reader that takes no more; out of memory.
pub fn read_head<G: Game + Drop, S: Source>(
    alloc: Global,
    reader: &mut LineReader,
    source: &mut S,
    newest: u32,
) -> Result<Head, HeadFault>
    ensures told { (lines : List AnyLine) → ahead_of reader.old (S.rest source.old) ≡ Some lines
        → ReadsHead result (head_of newest lines) lines (ahead_of reader.new (S.rest source.new)) }
    ensures unread { (lines : List AnyLine) → ahead_of reader.old (S.rest source.old) ≡ Some lines
        → (text : List ℕ) → HasRead text (S.rest source.old) reader.old 0
        → result ≡ Err HeadFault.ReadFault
        → BreaksOff 5 (head_of newest lines) text (S.rest source.new) reader.new }
    ensures head { IfOk result (λ h. IsHead newest h) }
    ensures fault { (fault : AnyFault) → result ≡ Err (HeadFault.BadGame fault)
        → fault ≢ GameFault.Memory }
    ensures taken { TakesLines 5 5 result reader.old reader.new (S.rest source.old)
        (S.rest source.new) (S.read_faults source.old) (S.read_faults source.new) }
{
    let version_field = NumberField {
        word: b"hive-certificate ",
        least: 1,
        most: newest,
    };
    let depth_field = NumberField {
        word: b"depth ",
        least: 1,
        most: 64,
    };
    let version = read_field(reader, source, 1, &version_field)?;
    let game = read_game_line::<G, S>(alloc, reader, source)?;
    let depth = read_field(reader, source, 3, &depth_field)?;
    let claim_text = read_field(reader, source, 4, &ClaimText { alloc })?;
    let value = read_field(reader, source, 5, &ClaimValue)?;
    Ok(Head {
        version,
        game_type: game.game_type,
        moves: game.moves,
        claim_text,
        depth,
        value,
    })
}
