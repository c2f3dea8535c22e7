//! Words that ask for an audit of a program, and words that do not.
use super::{ALL, BASE, are_words_of, ask_for, expect_nothing, words_of};
use command_words::{Asked, AuditAsked, asked_of, audited_of};
use std::alloc::{AllocError, Global};
use std::test::Fail;

/// Words, separated by `|`, and the games of the audit for which they ask.
struct Row {
    words: &'static str,
    audit: AuditAsked,
}

const ROWS: [Row; 13] = [
    Row {
        words: "audit|--engine|a|--games|1|--seed|0",
        audit: AuditAsked {
            games: 1,
            first: 1,
            seed: 0,
            plies: 80,
            game_type: None,
            most: 1_000_000,
            patient: false,
        },
    },
    Row {
        words: "audit|--engine|a|--seed=7|--games=1000000",
        audit: AuditAsked {
            games: 1_000_000,
            first: 1,
            seed: 7,
            plies: 80,
            game_type: None,
            most: 1_000_000,
            patient: false,
        },
    },
    Row {
        words: "audit|--engine|a|--games|2|--seed|18446744073709551615|--plies|1",
        audit: AuditAsked {
            games: 2,
            first: 1,
            seed: u64::MAX,
            plies: 1,
            game_type: None,
            most: 1_000_000,
            patient: false,
        },
    },
    Row {
        words: "audit|--engine|a|--plies=1000|--type|Base|--games=200|--seed=1",
        audit: AuditAsked {
            games: 200,
            first: 1,
            seed: 1,
            plies: 1000,
            game_type: Some(BASE),
            most: 1_000_000,
            patient: false,
        },
    },
    Row {
        words: "audit|--engine|a|--type=Base+MLP|--seed|3|--games|9",
        audit: AuditAsked {
            games: 9,
            first: 1,
            seed: 3,
            plies: 80,
            game_type: Some(ALL),
            most: 1_000_000,
            patient: false,
        },
    },
    Row {
        words: "audit|--engine|a|--quiet|1|--patience|00:00:05|--games|1|--seed|0",
        audit: AuditAsked {
            games: 1,
            first: 1,
            seed: 0,
            plies: 80,
            game_type: None,
            most: 1_000_000,
            patient: true,
        },
    },
    Row {
        words: "audit|--engine|a|--stop|1|--games|1|--seed|0",
        audit: AuditAsked {
            games: 1,
            first: 1,
            seed: 0,
            plies: 80,
            game_type: None,
            most: 1,
            patient: false,
        },
    },
    Row {
        words: "audit|--engine|a|--games|1|--stop=0|--seed|0",
        audit: AuditAsked {
            games: 1,
            first: 1,
            seed: 0,
            plies: 80,
            game_type: None,
            most: 1_000_000,
            patient: false,
        },
    },
    Row {
        words: "audit|--engine|a|--games|5|--seed|1|--first|4",
        audit: AuditAsked {
            games: 5,
            first: 4,
            seed: 1,
            plies: 80,
            game_type: None,
            most: 1_000_000,
            patient: false,
        },
    },
    Row {
        words: "audit|--first=1000000000|--engine|a|--games|5|--seed|1",
        audit: AuditAsked {
            games: 5,
            first: 1_000_000_000,
            seed: 1,
            plies: 80,
            game_type: None,
            most: 1_000_000,
            patient: false,
        },
    },
    Row {
        words: "audit|--engine|a|--games|5|--seed|1|--most|2",
        audit: AuditAsked {
            games: 5,
            first: 1,
            seed: 1,
            plies: 80,
            game_type: None,
            most: 2,
            patient: false,
        },
    },
    Row {
        words: "audit|--most=1000000|--stop|0|--engine|a|--games|5|--seed|1",
        audit: AuditAsked {
            games: 5,
            first: 1,
            seed: 1,
            plies: 80,
            game_type: None,
            most: 1_000_000,
            patient: false,
        },
    },
    Row {
        words: "audit|--engine|a|--stop=1|--games|5|--seed|1|--most|9",
        audit: AuditAsked {
            games: 5,
            first: 1,
            seed: 1,
            plies: 80,
            game_type: None,
            most: 1,
            patient: false,
        },
    },
];

/// Words, separated by `|`, that ask for no audit.
const NO_AUDITS: [&str; 27] = [
    "audit",
    "audit|--engine|a",
    "audit|--engine|a|--games|1",
    "audit|--engine|a|--seed|1",
    "audit|--games|1|--seed|1",
    "audit|--engine|a|--games|0|--seed|1",
    "audit|--engine|a|--games|1000001|--seed|1",
    "audit|--engine|a|--games|01|--seed|1",
    "audit|--engine|a|--games|1|--seed|18446744073709551616",
    "audit|--engine|a|--games|1|--seed|1|--plies|0",
    "audit|--engine|a|--games|1|--seed|1|--plies|1001",
    "audit|--engine|a|--games|1|--seed|1|--type|MLP",
    "audit|--engine|a|--games|1|--seed|1|--patience|5",
    "audit|--engine|a|--games|1|--seed|1|--quiet|2",
    "audit|--engine|a|--games|1|--seed|1|--depth|2",
    "audit|--engine|a|--games|1|--seed|1|--seed|1",
    "audit|--engine|a |--games|1|--seed|1",
    "audit|--engine|a  b|--games|1|--seed|1",
    "audit|--engine||--games|1|--seed|1",
    "audit|--engine|a|--games|1|--seed|1|x",
    "audit|--engine|a|--games|1|--seed|1|--stop",
    "audit|--engine|a|--games|1|--seed|1|--stop|2",
    "audit|--engine|a|--games|1|--seed|1|--first|0",
    "audit|--engine|a|--games|1|--seed|1|--first|1000000001",
    "audit|--engine|a|--games|1|--seed|1|--most|0",
    "audit|--engine|a|--games|1|--seed|1|--most|1000001",
    "audit|--engine|a|--games|1|--seed|1|--most|1|--most|1",
];

/// Whether the words ask for exactly this audit.
fn ask_for_audit(alloc: Global, row: &Row) -> Result<bool, AllocError> {
    ask_for(alloc, row.words, Some(Asked::Audit(row.audit)))
}

#[test]
fn audits_are_asked_for(rt: HostRuntime) -> Result<(), Fail> {
    for row in &ROWS {
        let holds = ask_for_audit(rt.alloc(), row)?;
        assert!(rt; holds, "at {}", row.words);
    }
    Ok(())
}

#[test]
fn other_words_ask_for_no_audit(rt: HostRuntime) -> Result<(), Fail> {
    expect_nothing(&rt, rt.alloc(), &NO_AUDITS)?;
    Ok(())
}

/// Words of an audit, separated by `|`, and the words of its program.
struct Named {
    words: &'static str,
    program: &'static str,
}

const NAMED: [Named; 3] = [
    Named {
        words: "audit|--engine|a|--games|1|--seed|0",
        program: "a",
    },
    Named {
        words: "audit|--games|1|--seed|0|--engine=./mine -x --y=1|--quiet|1",
        program: "./mine|-x|--y=1",
    },
    Named {
        words: "audit|--patience=00:01:00|--engine|hive uhp|--games|1|--seed|0",
        program: "hive|uhp",
    },
];

/// Whether the words ask for an audit of exactly this program.
fn name_program(alloc: Global, row: &Named) -> Result<bool, AllocError> {
    let words = words_of(alloc, row.words, '|')?;
    let Some(Asked::Audit(_)) = asked_of(alloc, words.as_slice())? else {
        return Ok(false);
    };
    let program = audited_of(alloc, words.as_slice())?;
    are_words_of(alloc, program.as_slice(), row.program, '|')
}

#[test]
fn programs_of_audits_have_their_words(rt: HostRuntime) -> Result<(), Fail> {
    for row in &NAMED {
        let holds = name_program(rt.alloc(), row)?;
        assert!(rt; holds, "at {}", row.words);
    }
    Ok(())
}
