//! Words and what they ask for.
mod audits;
mod cares;
mod commands;
mod cups;
mod matches;
mod tournaments;

use command_words::{Asked, asked_of};
use cup::Program;
use hive_model::GameType;
use match_core::{Level, Setup};
use std::alloc::{AllocError, Global};
use std::process::Abort;

/// The base game.
const BASE: GameType = GameType {
    mosquito: false,
    ladybug: false,
    pillbug: false,
};

/// The game with all three expansions.
const ALL: GameType = GameType {
    mosquito: true,
    ladybug: true,
    pillbug: true,
};

/// The setup of a match, a cup or a tournament if its words give none.
const USUAL: Setup = Setup {
    game_type: BASE,
    level: Level::Depth { depth: 2 },
    limit: 400,
    repetition: false,
};

/// Words, separated by `|`, and the setup of the match, or of each game of the cup, for which they
/// ask.
struct Played {
    words: &'static str,
    setup: Setup,
}

/// The parts between the separators of a text, or no word if it is empty.
fn words_of(alloc: Global, text: &str, separator: char) -> Result<Vec<String>, AllocError> {
    let mut words = Vec::new(alloc);
    if text.is_empty() {
        return Ok(words);
    }
    for word in text.split(separator) {
        words.push(String::from_str(alloc, word)?)?;
    }
    Ok(words)
}

/// Whether these are the words between the separators of a text.
fn are_words_of(
    alloc: Global,
    words: &[String],
    text: &str,
    separator: char,
) -> Result<bool, AllocError> {
    let wanted = words_of(alloc, text, separator)?;
    Ok(words == wanted.as_slice())
}

/// Whether words, separated by `|`, ask for exactly this, or for nothing if this is `None`.
fn ask_for(alloc: Global, text: &str, asked: Option<Asked>) -> Result<bool, AllocError> {
    let words = words_of(alloc, text, '|')?;
    Ok(asked_of(alloc, words.as_slice())? == asked)
}

/// Asserts that each of these words, separated by `|`, ask for nothing.
fn expect_nothing<R: Abort>(rt: &R, alloc: Global, texts: &[&str]) -> Result<(), AllocError> {
    for text in texts {
        let holds = ask_for(alloc, text, None)?;
        assert!(rt; holds, "at {text}");
    }
    Ok(())
}

/// Whether a program has this text, and the words between its spaces.
fn is_program(alloc: Global, program: &Program, text: &str) -> Result<bool, AllocError> {
    let same = are_words_of(alloc, program.words(), text, ' ')?;
    Ok(same && program.text() == text.as_bytes())
}

/// Whether these are exactly the programs of the texts between the semicolons of a text.
fn are_programs(alloc: Global, programs: &[Program], text: &str) -> Result<bool, AllocError> {
    let texts = words_of(alloc, text, ';')?;
    for (program, text) in programs.iter().zip(texts.iter()) {
        if !is_program(alloc, program, text.as_str())? {
            return Ok(false);
        }
    }
    Ok(programs.len() == texts.len())
}
