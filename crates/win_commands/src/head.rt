//! The head of a solution.

ghost use Rattle.std.specs.Prelude.{◌≡◌, ℕ, List, Some, Err, IfOk};
ghost use Rattle.line_feed.specs.Ahead.{ahead_of};
ghost use Rattle.io_edge.specs.Lines.{Line as AnyLine};
ghost use Rattle.certificate_text.specs.Heads.{BreaksOff, Reads, TakesLines};
ghost use Rattle.certificate_text.specs.Taken.{HasRead};
ghost use Rattle.win_commands.specs.Verdicts.{IsHead, head_of};

use crate::fields::AnswerField;
use certificate_text::{HeadFault, NumberField, read_field, read_game_line};
use game_text::Parsed;
use hive_model::Game;
use io_edge::Source;
use line_feed::LineReader;
use std::alloc::Global;

/// The content of a solution's head: the game, the number of plies, from 1 to 16, and whether the
/// side to move can force a win within them.
#[derive(Drop)]
pub struct Head {
    pub game: Parsed,
    pub plies: u32,
    pub answer: bool,
}

/// Reads the four lines of the head. No line after the first fault is read.
pub(crate) fn read_head<G: Game + Drop, S: Source>(
    alloc: Global,
    reader: &mut LineReader,
    source: &mut S,
) -> Result<Head, HeadFault>
    ensures told { (lines : List AnyLine) → ahead_of reader.old (S.rest source.old) ≡ Some lines
        → Reads 4 result (head_of lines) lines (ahead_of reader.new (S.rest source.new)) }
    ensures unread { (lines : List AnyLine) → ahead_of reader.old (S.rest source.old) ≡ Some lines
        → (text : List ℕ) → HasRead text (S.rest source.old) reader.old 0
        → result ≡ Err HeadFault.ReadFault
        → BreaksOff 4 (head_of lines) text (S.rest source.new) reader.new }
    ensures head { IfOk result IsHead }
    ensures taken { TakesLines 4 4 result reader.old reader.new (S.rest source.old)
        (S.rest source.new) (S.read_faults source.old) (S.read_faults source.new) }
{
    let version_field = NumberField {
        word: b"hive-solution ",
        least: 1,
        most: 1,
    };
    let plies_field = NumberField {
        word: b"plies ",
        least: 1,
        most: 16,
    };
    read_field(reader, source, 1, &version_field)?;
    let game = read_game_line::<G, S>(alloc, reader, source)?;
    let plies = read_field(reader, source, 3, &plies_field)?;
    let answer = read_field(reader, source, 4, &AnswerField)?;
    Ok(Head {
        game,
        plies,
        answer,
    })
}
