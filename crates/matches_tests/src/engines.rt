//! Engines in memory.
ghost use Rattle.std.specs.Prelude.{◌≡◌, IfOk, length};

use cup::Program;
use hive_model::GameType;
use io_edge::MemLink;
use memory_sides::{links_saying, owned_words};
use std::alloc::{AllocError, Global};

pub(crate) const BASE: GameType = GameType {
    mosquito: false,
    ladybug: false,
    pillbug: false,
};

/// The links of this number of games. In each of them white and black say these texts.
pub(crate) fn links_of(
    alloc: Global,
    white: &[u8],
    black: &[u8],
    games: usize,
) -> Result<Vec<MemLink>, AllocError> {
    let texts = [white, black].repeat(alloc, games)?;
    links_saying(alloc, texts.as_slice())
}

/// The program with this name and no other words.
pub(crate) fn program_of(alloc: Global, name: &str) -> Result<Program, AllocError> {
    let words = owned_words(alloc, &[name])?;
    Ok(Program::new(String::from_str(alloc, name)?, words))
}

/// The programs `a` and `b`.
pub(crate) fn two_programs(alloc: Global) -> Result<Vec<Program>, AllocError>
    ensures { IfOk result (λ programs. length programs.items ≡ 2) }
{
    let mut programs = Vec::new(alloc);
    programs.push(program_of(alloc, "a")?)?;
    programs.push(program_of(alloc, "b")?)?;
    Ok(programs)
}
