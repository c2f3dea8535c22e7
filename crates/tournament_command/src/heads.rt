//! The head of the tournament that the input tells, and a line that is to be this head.
ghost use Rattle.std.specs.Prelude.{◌≡◌, ◌≤◌, ◌<◌, ◌^◌, length, IfOk};
ghost use Rattle.std.specs.List.{All};
ghost use Rattle.tournament_record.specs.Openings.{IsOpening};
ghost use Rattle.tournament_command.specs.Formats.{IsFormat};
ghost use Rattle.tournament_command.specs.Intakes.{head_after, head_match};

use crate::format::{Format, plan_of};
use cup::Program;
use hive_model::{Game, MoveList, ReplyText};
use std::alloc::{AllocError, Global};
use tournament_record::{HeadPart, HeadParts, Topic, head_of, head_text, other_topic};

/// What a line is that is to be the head.
#[derive(Clone, Copy)]
pub(crate) enum HeadMatch {
    /// The head.
    Same,
    /// The first bytes of the head, as in a line that was cut.
    Cut,
    /// Another head, or none: this is the first that differs.
    Other { topic: Topic },
}

/// The head of a tournament of these programs from these openings.
pub(crate) fn head_after<G: Game + Drop>(
    alloc: Global,
    programs: &[Program],
    format: Format,
    openings: &[MoveList],
) -> Result<HeadParts, AllocError>
    requires format { IsFormat format }
    requires engines { length programs.now ≤ 64 }
    requires few { length openings.now ≤ 100000 }
    requires each { All (IsOpening format.setup.game_type) openings.now }
    ensures { IfOk result (λ parts. parts ≡ head_after programs.now format openings.now) }
{
    let plan = plan_of(programs.len() as u32, format, openings);
    if !openings.is_empty() {
        return head_of::<G>(alloc, programs, plan, format.setup, openings);
    }
    let mut none = Vec::new(alloc);
    none.push(MoveList::new(alloc))?;
    head_of::<G>(alloc, programs, plan, format.setup, none.as_slice())
}

/// What a line is that is to be this head.
pub(crate) fn head_match(
    alloc: Global,
    parts: &[HeadPart],
    text: &[u8],
) -> Result<HeadMatch, AllocError>
    ensures { IfOk result (λ is. is ≡ head_match parts.now text.now) }
{
    let head = head_text(alloc, parts)?;
    let mut line = ReplyText::new(alloc);
    line.push_all(text)?;
    line.push(b'\n')?;
    if line.items() == head.items() {
        return Ok(HeadMatch::Same);
    }
    if head.items().starts_with(text) {
        return Ok(HeadMatch::Cut);
    }
    let topic = other_topic(parts, line.items());
    Ok(HeadMatch::Other { topic })
}
