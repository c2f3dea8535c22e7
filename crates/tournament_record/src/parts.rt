//! The parts of a head.
ghost use Rattle.std.specs.Prelude.{◌≡◌, ◌++◌, ◌∷◌, ◌%◌, ◌≤◌, [], decimal, OnOk};
ghost use Rattle.tournament_record.specs.Heads.{flag_text, level_parts, part};
ghost use Rattle.match_core.specs.Keeps.{IsLevel};
ghost use Rattle.move_text.specs.Readers.{time_bytes};

use crate::topic::Topic;
use hive_model::{ItemList, ReplyText};
use match_command::write_number;
use match_core::Level;
use move_text::time_text;
use std::alloc::{AllocError, Global};

/// A part of the head: what it tells, and its bytes, with the one that ends it.
#[derive(Drop)]
pub struct HeadPart {
    pub topic: Topic,
    pub text: ReplyText,
}

/// The parts of a head, in order.
pub type HeadParts = ItemList<HeadPart>;

/// Appends a part with this value.
pub(crate) fn push_part(
    alloc: Global,
    parts: &mut HeadParts,
    topic: Topic,
    value: &[u8],
) -> Result<(), AllocError>
    ensures { OnOk result (parts.new ≡ parts.old ++ part topic value.now ∷ []) }
{
    let mut text = ReplyText::new(alloc);
    text.push_all(topic.word())?;
    text.push(b' ')?;
    text.push_all(value)?;
    text.push(b' ')?;
    parts.push(HeadPart { topic, text })
}

/// Appends a part with a number.
pub(crate) fn push_number(
    alloc: Global,
    parts: &mut HeadParts,
    topic: Topic,
    number: u64,
) -> Result<(), AllocError>
    ensures { OnOk result (parts.new ≡ parts.old ++ part topic (decimal number) ∷ []) }
{
    let mut value = ReplyText::new(alloc);
    write_number(&mut value, number)?;
    push_part(alloc, parts, topic, value.items())
}

/// Appends a part with 1 for true, and 0 for false.
pub(crate) fn push_flag(
    alloc: Global,
    parts: &mut HeadParts,
    topic: Topic,
    flag: bool,
) -> Result<(), AllocError>
    ensures { OnOk result (parts.new ≡ parts.old ++ part topic (flag_text flag) ∷ []) }
{
    if flag {
        push_part(alloc, parts, topic, b"1")
    } else {
        push_part(alloc, parts, topic, b"0")
    }
}

/// Appends the time that the engines have.
fn push_time(alloc: Global, parts: &mut HeadParts, budget: u64) -> Result<(), AllocError>
    requires whole { budget % 1000 ≡ 0 }
    requires most { budget ≤ 359999000 }
    ensures { OnOk result (parts.new ≡ parts.old ++ part Topic.Time (time_bytes budget) ∷ []) }
{
    let text = time_text(budget);
    push_part(alloc, parts, Topic::Time, text.as_bytes())
}

/// Appends how the engines are asked.
pub(crate) fn push_level(
    alloc: Global,
    parts: &mut HeadParts,
    level: Level,
) -> Result<(), AllocError>
    requires { IsLevel level }
    ensures { OnOk result (parts.new ≡ parts.old ++ level_parts level) }
{
    match level {
        Level::Depth { depth } => push_number(alloc, parts, Topic::Depth, u64::from(depth)),
        Level::Time { budget, margin } => {
            push_time(alloc, parts, budget)?;
            push_number(alloc, parts, Topic::Margin, margin)
        }
    }
}
