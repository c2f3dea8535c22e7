//! Words that ask for a tournament, words that do not, and the programs that they name.
use super::{ALL, USUAL, are_programs, ask_for, expect_nothing, words_of};
use command_words::{Asked, asked_of, tournament_engines_of};
use match_core::{Level, Setup};
use std::alloc::{AllocError, Global};
use std::test::Fail;

/// Words, separated by `|`, and the tournament for which they ask.
struct Row {
    words: &'static str,
    setup: Setup,
    rounds: u32,
    gauntlet: bool,
    at_once: u32,
    resume: bool,
}

/// The words of a tournament of 64 programs.
const SIXTY_FOUR: &str = "tournament|--engines|a;b;c;d;e;f;g;h;i;j;k;l;m;n;o;p;q;r;s;t;u;v;w;x;y;z;\
                          A;B;C;D;E;F;G;H;I;J;K;L;M;N;O;P;Q;R;S;T;U;V;W;X;Y;Z;\
                          0;1;2;3;4;5;6;7;8;9;aa;bb";

/// The words of a tournament of 65 programs.
const SIXTY_FIVE: &str = "tournament|--engines|a;b;c;d;e;f;g;h;i;j;k;l;m;n;o;p;q;r;s;t;u;v;w;x;y;z;\
                          A;B;C;D;E;F;G;H;I;J;K;L;M;N;O;P;Q;R;S;T;U;V;W;X;Y;Z;\
                          0;1;2;3;4;5;6;7;8;9;aa;bb;cc";

const ROWS: [Row; 5] = [
    Row {
        words: "tournament|--engines|a;b",
        setup: USUAL,
        rounds: 1,
        gauntlet: false,
        at_once: 1,
        resume: false,
    },
    Row {
        words: "tournament|--engines|a x;b|--type|Base+MLP|--time|00:00:05|--margin|300|--plies|7|\
                --repetition|1|--patience|00:01:00|--quiet|1|--rounds|10000|--at-once|64|\
                --gauntlet|1|--resume|1",
        setup: Setup {
            game_type: ALL,
            level: Level::Time {
                budget: 5000,
                margin: 300,
            },
            limit: 7,
            repetition: true,
        },
        rounds: 10_000,
        gauntlet: true,
        at_once: 64,
        resume: true,
    },
    Row {
        words: "tournament|--gauntlet=1|--at-once=8|--rounds=12|--depth=64|--engines=a;b;c",
        setup: Setup {
            level: Level::Depth { depth: 64 },
            ..USUAL
        },
        rounds: 12,
        gauntlet: true,
        at_once: 8,
        resume: false,
    },
    Row {
        words: "tournament|--resume=1|--engines|a;b|--gauntlet|0|--rounds|1|--at-once|1",
        setup: USUAL,
        rounds: 1,
        gauntlet: false,
        at_once: 1,
        resume: true,
    },
    Row {
        words: SIXTY_FOUR,
        setup: USUAL,
        rounds: 1,
        gauntlet: false,
        at_once: 1,
        resume: false,
    },
];

/// Words, separated by `|`, that ask for no tournament.
const NO_TOURNAMENTS: [&str; 18] = [
    "tournament",
    "tournament|--rounds|1",
    "tournament|--engines|a",
    SIXTY_FIVE,
    "tournament|--engines|a;b;a",
    "tournament|--engines|a;",
    "tournament|--engines|a; b",
    "tournament|--engines|a;b|--rounds|0",
    "tournament|--engines|a;b|--rounds|10001",
    "tournament|--engines|a;b|--at-once|0",
    "tournament|--engines|a;b|--at-once|65",
    "tournament|--engines|a;b|--depth|3|--time|00:00:05",
    "tournament|--engines|a;b|--gauntlet",
    "tournament|--engines|a;b|--gauntlet|2",
    "tournament|--engines|a;b|--resume|2",
    "tournament|--engines|a;b|--from|1",
    "tournament|--engines|a;b|--at_once|1",
    "cup|--engines|a;b|--rounds|1",
];

/// Whether the words ask for exactly this tournament.
fn ask_for_tournament(alloc: Global, row: &Row) -> Result<bool, AllocError> {
    let tournament = Asked::Tournament {
        setup: row.setup,
        rounds: row.rounds,
        gauntlet: row.gauntlet,
        at_once: row.at_once,
        resume: row.resume,
    };
    ask_for(alloc, row.words, Some(tournament))
}

#[test]
fn tournaments_are_asked_for(rt: HostRuntime) -> Result<(), Fail> {
    for row in &ROWS {
        let holds = ask_for_tournament(rt.alloc(), row)?;
        assert!(rt; holds, "at {}", row.words);
    }
    Ok(())
}

#[test]
fn other_words_ask_for_no_tournament(rt: HostRuntime) -> Result<(), Fail> {
    expect_nothing(&rt, rt.alloc(), &NO_TOURNAMENTS)?;
    Ok(())
}

/// Whether the words ask for a tournament of exactly the programs of these texts, separated by `;`.
fn name_engines(alloc: Global, words: &str, engines: &str) -> Result<bool, AllocError> {
    let words = words_of(alloc, words, '|')?;
    let Some(Asked::Tournament { .. }) = asked_of(alloc, words.as_slice())? else {
        return Ok(false);
    };
    let programs = tournament_engines_of(alloc, words.as_slice())?;
    are_programs(alloc, programs.as_slice(), engines)
}

#[test]
fn programs_of_tournaments_have_their_words(rt: HostRuntime) -> Result<(), Fail> {
    let words = "tournament|--rounds=3|--engines|./one --y=1 -z;two;hive uhp";
    let holds = name_engines(rt.alloc(), words, "./one --y=1 -z;two;hive uhp")?;
    assert!(rt; holds);
    Ok(())
}
