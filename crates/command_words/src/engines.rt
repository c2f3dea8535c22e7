//! Programs separated by semicolons, in one text.
ghost use Rattle.std.specs.Prelude.{◌≡◌, ◌↔◌, All, map, IfOk, IsTrue};
ghost use Rattle.command_words.specs.Engines.{AreDistinct, ArePrograms, engine_of, program_texts};
ghost use Rattle.command_words.specs.Matches.{IsProgram};

use crate::matched::is_program;
use crate::program::words_of;
use cup::Program;
use indexmap::IndexSet;
use std::alloc::{AllocError, Global};

/// The texts between the semicolons of a text, in order.
fn texts_of(alloc: Global, text: &str) -> Result<Vec<&str>, AllocError>
    ensures { IfOk result (λ texts. map (λ one. one.now) texts.items ≡ program_texts text.now) }
{
    text.split(';').collect(alloc)
}

/// Whether each of these texts is a program and its words.
fn are_each_program(texts: &[&str]) -> bool
    ensures { IsTrue result ↔ All IsProgram (map (λ one. one.now) texts.now) }
{
    for text in texts {
        if !is_program(text) {
            return false;
        }
    }
    true
}

/// Whether no two of these texts are equal.
fn are_distinct(alloc: Global, texts: &[&str]) -> Result<bool, AllocError>
    ensures { IfOk result (λ b. IsTrue b ↔ AreDistinct (map (λ one. one.now) texts.now)) }
{
    let seen: IndexSet<&str> = texts.iter().copied().collect(alloc)?;
    Ok(seen.len() == texts.len())
}

/// Whether a text has two or more programs, at most this number, and no two of them are equal. The
/// only error is that memory runs out before this is known.
pub(crate) fn are_programs(alloc: Global, text: &str, most: usize) -> Result<bool, AllocError>
    ensures { IfOk result (λ b. IsTrue b ↔ ArePrograms most text.now) }
{
    let texts = texts_of(alloc, text)?;
    if texts.len() < 2 || most < texts.len() || !are_each_program(texts.as_slice()) {
        return Ok(false);
    }
    are_distinct(alloc, texts.as_slice())
}

/// The program that a text names.
fn program_of(alloc: Global, text: &str) -> Result<Program, AllocError>
    ensures { IfOk result (λ program. program ≡ engine_of text.now) }
{
    let words = words_of(alloc, text)?;
    Ok(Program::new(String::from_str(alloc, text)?, words))
}

/// The programs that texts name, in order.
fn programs_of(alloc: Global, texts: &[&str]) -> Result<Vec<Program>, AllocError>
    ensures { IfOk result (λ programs. programs.items
        ≡ map engine_of (map (λ one. one.now) texts.now)) }
{
    let mut programs = Vec::new(alloc);
    for text in texts {
        programs.push(program_of(alloc, text)?)?;
    }
    Ok(programs)
}

/// The programs of a text: the texts between its semicolons, in order.
pub(crate) fn programs_in(alloc: Global, text: &str) -> Result<Vec<Program>, AllocError>
    ensures { IfOk result (λ programs. programs.items
        ≡ map engine_of (program_texts text.now)) }
{
    let texts = texts_of(alloc, text)?;
    programs_of(alloc, texts.as_slice())
}
