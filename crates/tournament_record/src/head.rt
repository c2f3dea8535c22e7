//! The head, made and compared.
ghost use Rattle.std.specs.Prelude.{◌≡◌, ◌++◌, ◌∷◌, [], IfOk, OnOk};
ghost use Rattle.std.specs.List.{All, flat_map};
ghost use Rattle.match_core.specs.Keeps.{IsSetup};
ghost use Rattle.match_command.specs.Texts.{shown};
ghost use Rattle.tournament_record.specs.Openings.{IsOpening};
ghost use Rattle.tournament_record.specs.Heads.{
  engines_part,
  engines_text,
  head,
  head_text,
  limit_parts,
  openings_parts,
  other_engine,
  other_topic,
  plan_parts,
  setup_parts,
};

use crate::openings::openings_sum;
use crate::parts::{HeadPart, HeadParts, push_flag, push_level, push_number, push_part};
use crate::topic::Topic;
use cup::Program;
use hive_model::{Game, GameType, MoveList, ReplyText};
use match_command::write_shown;
use match_core::Setup;
use move_text::type_text;
use std::alloc::{AllocError, Global};
use tournament_core::Plan;

/// Appends the limit of plies, and whether third repetition draws.
fn push_limits(alloc: Global, parts: &mut HeadParts, setup: Setup) -> Result<(), AllocError>
    ensures { OnOk result (parts.new ≡ parts.old ++ limit_parts setup) }
{
    push_number(alloc, parts, Topic::Plies, u64::from(setup.limit))?;
    push_flag(alloc, parts, Topic::Repetition, setup.repetition)
}

/// Appends what matches are played by.
fn push_setup(alloc: Global, parts: &mut HeadParts, setup: Setup) -> Result<(), AllocError>
    requires { IsSetup setup }
    ensures { OnOk result (parts.new ≡ parts.old ++ setup_parts setup) }
{
    push_part(alloc, parts, Topic::Tournament, b"1")?;
    push_part(
        alloc,
        parts,
        Topic::GameType,
        type_text(setup.game_type).as_bytes(),
    )?;
    push_level(alloc, parts, setup.level)?;
    push_limits(alloc, parts, setup)
}

/// Appends who plays whom, and from how many openings.
fn push_plan(alloc: Global, parts: &mut HeadParts, plan: Plan) -> Result<(), AllocError>
    ensures { OnOk result (parts.new ≡ parts.old ++ plan_parts plan) }
{
    push_number(alloc, parts, Topic::Rounds, u64::from(plan.rounds))?;
    push_flag(alloc, parts, Topic::Gauntlet, plan.gauntlet)?;
    push_number(alloc, parts, Topic::Openings, u64::from(plan.openings))
}

/// Appends the sum of the openings.
fn push_sum<G: Game + Drop>(
    alloc: Global,
    parts: &mut HeadParts,
    game_type: GameType,
    openings: &[MoveList],
) -> Result<(), AllocError>
    requires each { All (IsOpening game_type) openings.now }
    ensures { OnOk result (parts.new ≡ parts.old ++ openings_parts game_type openings.now) }
{
    let sum = openings_sum::<G>(alloc, game_type, openings)?;
    let text = hex::encode(alloc, sum)?;
    push_part(alloc, parts, Topic::Sum, text.as_bytes())
}

/// Appends a semicolon and the text of a program, for each of these.
fn write_others(out: &mut ReplyText, programs: &[Program]) -> Result<(), AllocError>
    ensures { OnOk result (out.new ≡ out.old ++ flat_map other_engine programs.now) }
{
    for program in programs {
        out.push(b';')?;
        write_shown(out, program.text())?;
    }
    Ok(())
}

/// Appends the texts of the programs, joined by semicolons.
fn write_engines(out: &mut ReplyText, programs: &[Program]) -> Result<(), AllocError>
    ensures { OnOk result (out.new ≡ out.old ++ engines_text programs.now) }
{
    match programs.split_first() {
        Some((first, others)) => {
            write_shown(out, first.text())?;
            write_others(out, others)
        }
        None => Ok(()),
    }
}

/// Appends the engines, and ends the line.
fn push_engines(
    alloc: Global,
    parts: &mut HeadParts,
    programs: &[Program],
) -> Result<(), AllocError>
    ensures { OnOk result (parts.new ≡ parts.old ++ engines_part programs.now ∷ []) }
{
    let mut text = ReplyText::new(alloc);
    text.push_all(Topic::Engines.word())?;
    text.push(b' ')?;
    write_engines(&mut text, programs)?;
    text.push(b'\n')?;
    parts.push(HeadPart {
        topic: Topic::Engines,
        text,
    })
}

/// The head of a tournament of these programs, by its parts. The only error is want of memory.
pub fn head_of<G: Game + Drop>(
    alloc: Global,
    programs: &[Program],
    plan: Plan,
    setup: Setup,
    openings: &[MoveList],
) -> Result<HeadParts, AllocError>
    requires setup { IsSetup setup }
    requires each { All (IsOpening setup.game_type) openings.now }
    ensures { IfOk result (λ parts. parts ≡ head programs.now plan setup openings.now) }
{
    let mut parts = HeadParts::new(alloc);
    push_setup(alloc, &mut parts, setup)?;
    push_plan(alloc, &mut parts, plan)?;
    push_sum::<G>(alloc, &mut parts, setup.game_type, openings)?;
    push_engines(alloc, &mut parts, programs)?;
    Ok(parts)
}

/// The line of a head, with its LF.
pub fn head_text(alloc: Global, parts: &[HeadPart]) -> Result<ReplyText, AllocError>
    ensures { IfOk result (λ text. text ≡ head_text parts.now) }
{
    let mut text = ReplyText::new(alloc);
    for part in parts {
        text.push_all(part.text.items())?;
    }
    Ok(text)
}

/// What the first part of the head tells that does not stand in its place in a line, which is given
/// with its LF.
pub fn other_topic(parts: &[HeadPart], line: &[u8]) -> Topic
    ensures { result ≡ other_topic parts.now line.now }
{
    match parts.split_first() {
        Some((part, others)) => {
            let text = part.text.items();
            if line.starts_with(text) {
                other_topic(others, &line[text.len()..])
            } else {
                part.topic
            }
        }
        None => Topic::Engines,
    }
}
