//! Words and how they ask to treat engines: the longest wait for an answer, and whether standard
//! error is thrown away.
use super::words_of;
use command_words::{EngineLimits, care_of};
use std::alloc::{AllocError, Global};
use std::test::Fail;

/// Words, separated by `|`, the longest wait for an answer for which they ask, in milliseconds, and
/// whether standard error is thrown away.
struct Row {
    words: &'static str,
    limit: Option<u64>,
    quiet: bool,
}

const ROWS: [Row; 13] = [
    Row {
        words: "uhp",
        limit: None,
        quiet: false,
    },
    Row {
        words: "match|--white|a|--black|b",
        limit: None,
        quiet: false,
    },
    Row {
        words: "match|--white|a|--black|b|--time|00:00:05|--margin|300",
        limit: Some(15_300),
        quiet: false,
    },
    Row {
        words: "match|--white|a|--black|b|--patience=00:00:02|--time|00:00:05|--margin|300",
        limit: Some(7_300),
        quiet: false,
    },
    Row {
        words: "match|--white|a|--black|b|--patience|00:01:00|--quiet|1",
        limit: Some(60_000),
        quiet: true,
    },
    Row {
        words: "cup|--engines|a;b",
        limit: None,
        quiet: false,
    },
    Row {
        words: "cup|--engines|a;b|--patience|01:00:00|--quiet=0",
        limit: Some(3_600_000),
        quiet: false,
    },
    Row {
        words: "cup|--engines|a;b|--quiet|1|--depth|3",
        limit: None,
        quiet: true,
    },
    Row {
        words: "tournament|--engines|a;b|--rounds|2|--at-once|2",
        limit: None,
        quiet: false,
    },
    Row {
        words: "tournament|--engines|a;b|--time|00:00:05|--quiet|1|--patience|00:00:02",
        limit: Some(8_000),
        quiet: true,
    },
    Row {
        words: "audit|--engine|a|--games|1|--seed|0",
        limit: None,
        quiet: false,
    },
    Row {
        words: "audit|--games|1|--seed|0|--engine=./mine -x --y=1|--quiet|1",
        limit: None,
        quiet: true,
    },
    Row {
        words: "audit|--patience=00:01:00|--engine|hive uhp|--games|1|--seed|0",
        limit: Some(60_000),
        quiet: false,
    },
];

/// Whether the words ask for exactly this treatment.
fn ask_for_care(alloc: Global, row: &Row) -> Result<bool, AllocError> {
    let words = words_of(alloc, row.words, '|')?;
    let care = EngineLimits {
        limit: row.limit,
        quiet: row.quiet,
    };
    Ok(care_of(alloc, words.as_slice())? == care)
}

#[test]
fn engines_are_cared_for(rt: HostRuntime) -> Result<(), Fail> {
    for row in &ROWS {
        let holds = ask_for_care(rt.alloc(), row)?;
        assert!(rt; holds, "at {}", row.words);
    }
    Ok(())
}
