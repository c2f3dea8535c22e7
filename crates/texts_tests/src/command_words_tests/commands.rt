//! Words that ask for a command without a program, and words that ask for nothing.
use super::{ask_for, expect_nothing};
use command_words::Asked;
use std::test::Fail;

/// Words, separated by `|`, and what they ask for.
struct Row {
    words: &'static str,
    asked: Asked,
}

const ROWS: [Row; 18] = [
    Row {
        words: "",
        asked: Asked::Session,
    },
    Row {
        words: "uhp",
        asked: Asked::Session,
    },
    Row {
        words: "replay",
        asked: Asked::Replay { repetition: false },
    },
    Row {
        words: "replay|--repetition|1",
        asked: Asked::Replay { repetition: true },
    },
    Row {
        words: "replay|--repetition=0",
        asked: Asked::Replay { repetition: false },
    },
    Row {
        words: "count|--plies|8",
        asked: Asked::Count {
            plies: 8,
            workers: 1,
            split: false,
        },
    },
    Row {
        words: "count|--plies=1",
        asked: Asked::Count {
            plies: 1,
            workers: 1,
            split: false,
        },
    },
    Row {
        words: "count|--workers|16|--plies=8",
        asked: Asked::Count {
            plies: 8,
            workers: 16,
            split: false,
        },
    },
    Row {
        words: "count|--split|1|--plies|3",
        asked: Asked::Count {
            plies: 3,
            workers: 1,
            split: true,
        },
    },
    Row {
        words: "certify|--depth=1",
        asked: Asked::Certify(1),
    },
    Row {
        words: "certify|--depth|64",
        asked: Asked::Certify(64),
    },
    Row {
        words: "check",
        asked: Asked::Check,
    },
    Row {
        words: "solve|--plies|16",
        asked: Asked::Solve(16),
    },
    Row {
        words: "verify",
        asked: Asked::Verify,
    },
    Row {
        words: "book",
        asked: Asked::Book,
    },
    Row {
        words: "migrate",
        asked: Asked::Migrate,
    },
    Row {
        words: "grow|--plies|1000|--seed|18446744073709551615",
        asked: Asked::Grow {
            seed: u64::MAX,
            plies: 1000,
        },
    },
    Row {
        words: "grow|--seed=7|--plies=200",
        asked: Asked::Grow {
            seed: 7,
            plies: 200,
        },
    },
];

/// Words, separated by `|`, that ask for nothing.
const NOTHING: [&str; 30] = [
    "uhp|x",
    "x",
    "replay|--repetition|2",
    "replay|--repetition|01",
    "replay|--repetition",
    "replay|--repetition|1|--repetition|1",
    "replay|--plies|1",
    "replay|1",
    "replay|x",
    "count|--plies|9",
    "count|--plies|0",
    "count",
    "count|--workers|2",
    "count|--plies|1|--workers|0",
    "count|--plies|1|--workers|17",
    "count|--plies|1|--split|2",
    "certify",
    "certify|--depth|65",
    "certify|--depth|1|--depth|1",
    "check|--depth|1",
    "solve|--plies|17",
    "solve|--plies|01",
    "verify|verify",
    "book|1",
    "migrate|--depth|1",
    "grow|1",
    "grow|--seed|0",
    "grow|--seed|0|--plies|1001",
    "grow|--plies|0|--seed|0",
    "grow|--seed|18446744073709551616|--plies|1",
];

#[test]
fn words_ask_for_one_thing(rt: HostRuntime) -> Result<(), Fail> {
    for row in &ROWS {
        let holds = ask_for(rt.alloc(), row.words, Some(row.asked))?;
        assert!(rt; holds, "at {}", row.words);
    }
    Ok(())
}

#[test]
fn other_words_ask_for_nothing(rt: HostRuntime) -> Result<(), Fail> {
    expect_nothing(&rt, rt.alloc(), &NOTHING)?;
    Ok(())
}
