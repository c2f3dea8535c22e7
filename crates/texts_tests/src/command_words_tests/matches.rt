//! Words that ask for a match, words that do not, and the programs that they name.
use super::{ALL, Played, USUAL, are_words_of, ask_for, expect_nothing, words_of};
use command_words::{Asked, asked_of, programs_of};
use match_core::{Level, Setup};
use std::alloc::{AllocError, Global};
use std::test::Fail;

const PLAYED: [Played; 21] = [
    Played {
        words: "match|--white|a|--black=b c",
        setup: USUAL,
    },
    Played {
        words: "match|--white|a|--black=b c|--plies|1",
        setup: Setup { limit: 1, ..USUAL },
    },
    Played {
        words: "match|--white|a|--black=b c|--plies=1000",
        setup: Setup {
            limit: 1000,
            ..USUAL
        },
    },
    Played {
        words: "match|--white|a|--black=b c|--depth|1",
        setup: Setup {
            level: Level::Depth { depth: 1 },
            ..USUAL
        },
    },
    Played {
        words: "match|--white|a|--black=b c|--depth|64",
        setup: Setup {
            level: Level::Depth { depth: 64 },
            ..USUAL
        },
    },
    Played {
        words: "match|--white|a|--black=b c|--margin|0",
        setup: USUAL,
    },
    Played {
        words: "match|--white|a|--black=b c|--type|Base",
        setup: USUAL,
    },
    Played {
        words: "match|--white|a|--black=b c|--quiet=0|--patience|00:00:00",
        setup: USUAL,
    },
    Played {
        words: "match|--white|a|--black=b c|--type=Base+MLP",
        setup: Setup {
            game_type: ALL,
            ..USUAL
        },
    },
    Played {
        words: "match|--white|a|--black=b c|--time|00:00:05",
        setup: Setup {
            level: Level::Time {
                budget: 5000,
                margin: 1000,
            },
            ..USUAL
        },
    },
    Played {
        words: "match|--white|a|--black=b c|--margin|0|--time=01:00:00",
        setup: Setup {
            level: Level::Time {
                budget: 3_600_000,
                margin: 0,
            },
            ..USUAL
        },
    },
    Played {
        words: "match|--white|a|--black=b c|--margin|3600000|--time=00:00:00",
        setup: Setup {
            level: Level::Time {
                budget: 0,
                margin: 3_600_000,
            },
            ..USUAL
        },
    },
    Played {
        words: "match|--white|a|--black=b c|--time=99:59:59",
        setup: Setup {
            level: Level::Time {
                budget: 359_999_000,
                margin: 1000,
            },
            ..USUAL
        },
    },
    Played {
        words: "match|--white|a|--black=b c|--plies|7|--depth=3|--type|Base+MLP",
        setup: Setup {
            game_type: ALL,
            level: Level::Depth { depth: 3 },
            limit: 7,
            repetition: false,
        },
    },
    Played {
        words: "match|--white|a|--black=b c|--margin=5|--depth|2",
        setup: USUAL,
    },
    Played {
        words: "match|--white|a|--black|b",
        setup: USUAL,
    },
    Played {
        words: "match|--white|a|--black|b|--repetition|0",
        setup: USUAL,
    },
    Played {
        words: "match|--white|a|--black|b|--repetition|1",
        setup: Setup {
            repetition: true,
            ..USUAL
        },
    },
    Played {
        words: "match|--white|a|--black|b|--plies=400|--repetition=1|--depth|2",
        setup: Setup {
            repetition: true,
            ..USUAL
        },
    },
    Played {
        words: "match|--white|a|--black|b|--from|0",
        setup: USUAL,
    },
    Played {
        words: "match|--white|a|--black|b|--type|Base+MLP|--from=0",
        setup: Setup {
            game_type: ALL,
            ..USUAL
        },
    },
];

/// Matches that begin with a given game.
const FROM_GAMES: [Played; 2] = [
    Played {
        words: "match|--white|a|--black|b|--from|1",
        setup: USUAL,
    },
    Played {
        words: "match|--from=1|--white|a|--plies|7|--black|b|--repetition|1|--depth|2",
        setup: Setup {
            limit: 7,
            repetition: true,
            ..USUAL
        },
    },
];

/// Words, separated by `|`, that ask for no match.
const NO_MATCHES: [&str; 33] = [
    "match",
    "match|--white|a",
    "match|--black|b",
    "match|--white|a|--black|b|--plies|0",
    "match|--white|a|--black|b|--plies|1001",
    "match|--white|a|--black|b|--depth|0",
    "match|--white|a|--black|b|--depth|65",
    "match|--white|a|--black|b|--depth|02",
    "match|--white|a|--black|b|--margin|3600001",
    "match|--white|a|--black|b|--time|00:00:05|--margin|3600001",
    "match|--white|a|--black|b|--time|00:00:05|--depth|2",
    "match|--white|a|--black|b|--time|0:00:05",
    "match|--white|a|--black|b|--time|00:60:00",
    "match|--white|a|--black|b|--type|MLP",
    "match|--white|a  c|--black|b",
    "match|--white|a |--black|b",
    "match|--white| a|--black|b",
    "match|--white|a|--black|b  c",
    "match|--white||--black|b",
    "match|--white|a|--white|a|--black|b",
    "match|--white|a|--black|b|--plies|1|--plies|1",
    "match|--white|a|--black|b|--seed|1",
    "match|--white|a|--black|b|--repetition|2",
    "match|--white|a|--black|b|--repetition",
    "match|--white|a|--black|b|--repetition|1|--repetition|1",
    "match|--white|a|--black|b|--patience|5",
    "match|--white|a|--black|b|--time|00:00:05|--patience|00:60:00",
    "match|--white|a|--black|b|--quiet|2",
    "match|--white|a|--black|b|--from|2",
    "match|--white|a|--black|b|--from",
    "match|--white|a|--black|b|--from|1|--from|1",
    "match|--white|a|--black|b|--from|1|--type|Base",
    "match|--type=Base+MLP|--white|a|--black|b|--from=1",
];

/// Whether the words ask for a match with this setup.
fn ask_for_match(alloc: Global, row: &Played, from: bool) -> Result<bool, AllocError> {
    let setup = row.setup;
    ask_for(alloc, row.words, Some(Asked::Match { setup, from }))
}

#[test]
fn matches_are_asked_for(rt: HostRuntime) -> Result<(), Fail> {
    for row in &PLAYED {
        let holds = ask_for_match(rt.alloc(), row, false)?;
        assert!(rt; holds, "at {}", row.words);
    }
    Ok(())
}

#[test]
fn matches_from_games_are_asked_for(rt: HostRuntime) -> Result<(), Fail> {
    for row in &FROM_GAMES {
        let holds = ask_for_match(rt.alloc(), row, true)?;
        assert!(rt; holds, "at {}", row.words);
    }
    Ok(())
}

#[test]
fn other_words_ask_for_no_match(rt: HostRuntime) -> Result<(), Fail> {
    expect_nothing(&rt, rt.alloc(), &NO_MATCHES)?;
    Ok(())
}

/// Words of a match, separated by `|`, and the words of its two programs.
struct Named {
    words: &'static str,
    white: &'static str,
    black: &'static str,
}

const NAMED: [Named; 3] = [
    Named {
        words: "match|--white|a|--black|b",
        white: "a",
        black: "b",
    },
    Named {
        words: "match|--black=hive uhp|--white|./other",
        white: "./other",
        black: "hive|uhp",
    },
    Named {
        words: "match|--white=one -x --y=1|--depth|3|--black=z y x w",
        white: "one|-x|--y=1",
        black: "z|y|x|w",
    },
];

/// Whether the words ask for a match of these two programs.
fn name_programs(alloc: Global, row: &Named) -> Result<bool, AllocError> {
    let words = words_of(alloc, row.words, '|')?;
    let Some(Asked::Match { .. }) = asked_of(alloc, words.as_slice())? else {
        return Ok(false);
    };
    let programs = programs_of(alloc, words.as_slice())?;
    let white = are_words_of(alloc, programs.white.as_slice(), row.white, '|')?;
    let black = are_words_of(alloc, programs.black.as_slice(), row.black, '|')?;
    Ok(white && black)
}

#[test]
fn programs_of_matches_have_their_words(rt: HostRuntime) -> Result<(), Fail> {
    for row in &NAMED {
        let holds = name_programs(rt.alloc(), row)?;
        assert!(rt; holds, "at {}", row.words);
    }
    Ok(())
}
