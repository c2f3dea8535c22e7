//! Words that ask for a cup, words that do not, and the programs that they name.
use super::{ALL, Played, USUAL, are_programs, ask_for, expect_nothing, words_of};
use command_words::{Asked, asked_of, engines_of};
use match_core::{Level, Setup};
use std::alloc::{AllocError, Global};
use std::test::Fail;

const PLAYED: [Played; 8] = [
    Played {
        words: "cup|--engines|a;b",
        setup: USUAL,
    },
    Played {
        words: "cup|--engines=a x;b",
        setup: USUAL,
    },
    Played {
        words: "cup|--engines|a;b;c;d;e;f;g;h",
        setup: USUAL,
    },
    Played {
        words: "cup|--engines|a;a x;a x y;a=",
        setup: USUAL,
    },
    Played {
        words: "cup|--engines|a;b|--type|Base+MLP",
        setup: Setup {
            game_type: ALL,
            ..USUAL
        },
    },
    Played {
        words: "cup|--engines|a;b|--depth=1|--plies|1",
        setup: Setup {
            level: Level::Depth { depth: 1 },
            limit: 1,
            ..USUAL
        },
    },
    Played {
        words: "cup|--plies=1000|--depth|64|--engines=a;b",
        setup: Setup {
            level: Level::Depth { depth: 64 },
            limit: 1000,
            ..USUAL
        },
    },
    Played {
        words: "cup|--type=Base+MLP|--plies|7|--engines|a;b;c|--depth=3",
        setup: Setup {
            game_type: ALL,
            level: Level::Depth { depth: 3 },
            limit: 7,
            repetition: false,
        },
    },
];

/// Words, separated by `|`, that ask for no cup.
const NO_CUPS: [&str; 30] = [
    "cup",
    "cup|--depth|2",
    "cup|--engines|a",
    "cup|--engines|a;a",
    "cup|--engines|a;b;a",
    "cup|--engines|a x;b;a x",
    "cup|--engines|a;b;c;d;e;f;g;h;i",
    "cup|--engines|a;",
    "cup|--engines|;a",
    "cup|--engines|a;;b",
    "cup|--engines|;",
    "cup|--engines|a; b",
    "cup|--engines|a ;b",
    "cup|--engines|a  x;b",
    "cup|--engines|a;b ",
    "cup|--engines|a;b|--time|00:00:05",
    "cup|--engines|a;b|--margin|0",
    "cup|--engines|a;b|--white|a",
    "cup|--engines|a;b|--depth|0",
    "cup|--engines|a;b|--depth|65",
    "cup|--engines|a;b|--plies|0",
    "cup|--engines|a;b|--plies|1001",
    "cup|--engines|a;b|--type|MLP",
    "cup|--engines|a;b|--repetition|0",
    "cup|--engines|a;b|--repetition|1",
    "cup|--engines|a;b|--engines|a;b",
    "cup|--engines|a;b|--patience|5",
    "cup|--engines|a;b|--quiet|2",
    "cup|--engines",
    "match|--engines|a;b",
];

#[test]
fn cups_are_asked_for(rt: HostRuntime) -> Result<(), Fail> {
    for row in &PLAYED {
        let holds = ask_for(rt.alloc(), row.words, Some(Asked::Cup(row.setup)))?;
        assert!(rt; holds, "at {}", row.words);
    }
    Ok(())
}

#[test]
fn other_words_ask_for_no_cup(rt: HostRuntime) -> Result<(), Fail> {
    expect_nothing(&rt, rt.alloc(), &NO_CUPS)?;
    Ok(())
}

/// Words of a cup, separated by `|`, and the texts of its programs, separated by `;`.
struct Named {
    words: &'static str,
    engines: &'static str,
}

const NAMED: [Named; 2] = [
    Named {
        words: "cup|--depth=3|--engines|a x;b",
        engines: "a x;b",
    },
    Named {
        words: "cup|--depth=3|--engines|./one --y=1 -z;two;hive uhp",
        engines: "./one --y=1 -z;two;hive uhp",
    },
];

/// Whether the words ask for a cup of exactly these programs.
fn name_engines(alloc: Global, row: &Named) -> Result<bool, AllocError> {
    let words = words_of(alloc, row.words, '|')?;
    let Some(Asked::Cup(_)) = asked_of(alloc, words.as_slice())? else {
        return Ok(false);
    };
    let programs = engines_of(alloc, words.as_slice())?;
    are_programs(alloc, programs.as_slice(), row.engines)
}

#[test]
fn programs_of_cups_have_their_words(rt: HostRuntime) -> Result<(), Fail> {
    for row in &NAMED {
        let holds = name_engines(rt.alloc(), row)?;
        assert!(rt; holds, "at {}", row.words);
    }
    Ok(())
}
