//! Tests of `option_words`: words, and the answers that the form of the command line gives for
//! them.

use option_words::{one_option, options_of};
use std::alloc::Global;
use std::test::Fail;

/// Words, separated by single spaces, and the value that they give the option `--plies` of
/// `count`.
const ROWS: [(&str, Option<&str>); 33] = [
    ("count --plies=2", Some("2")),
    ("count --plies 2", Some("2")),
    ("count --plies=a=b", Some("a=b")),
    ("count --plies a=b", Some("a=b")),
    ("count --plies 2-", Some("2-")),
    ("count --plies=--plies", None),
    ("count --plies=zwölf", Some("zwölf")),
    ("", None),
    ("count", None),
    ("--plies=2", None),
    ("perft --plies=2", None),
    ("count --plies", None),
    ("count --plies=", None),
    ("count --plies ", None),
    ("count --plies=-2", None),
    ("count --plies -2", None),
    ("count --plies -", None),
    ("count --plies --", None),
    ("count --plies=--", None),
    ("count --plies 2 --", None),
    ("count --plies=2 --", None),
    ("count -- --plies=2", None),
    ("count --", None),
    ("count --pl=2", None),
    ("count --plie 2", None),
    ("count --depth=2", None),
    ("count -p 2", None),
    ("count -plies=2", None),
    ("count plies=2", None),
    ("count --plies=2 --plies=2", None),
    ("count --plies 2 --plies 2", None),
    ("count --plies=2 3", None),
    ("count 3 --plies=2", None),
];

/// Words, separated by `|`, and the values that they give the options `--seed` and `--plies` of
/// `grow`.
const GROW_ROWS: [(&str, [Option<&str>; 2]); 12] = [
    ("grow|--seed=7|--plies=12", [Some("7"), Some("12")]),
    ("grow|--plies=12|--seed=7", [Some("7"), Some("12")]),
    ("grow|--seed|7|--plies|12", [Some("7"), Some("12")]),
    ("grow|--plies|12|--seed|7", [Some("7"), Some("12")]),
    ("grow|--plies|12|--seed=7", [Some("7"), Some("12")]),
    ("grow|--seed=7|--plies|12", [Some("7"), Some("12")]),
    ("grow|--seed=7", [Some("7"), None]),
    ("grow|--plies|12", [None, Some("12")]),
    ("grow", [None, None]),
    ("grow|--seed=a=b|--plies=1 2", [Some("a=b"), Some("1 2")]),
    ("grow|--plies|1 2|--seed|a=b", [Some("a=b"), Some("1 2")]),
    (
        "grow|--seed|plies|--plies|seed",
        [Some("plies"), Some("seed")],
    ),
];

/// Words, separated by `|`, that are not those of `grow` and its two options.
const NO_GROWS: [&str; 22] = [
    "",
    "match|--seed=7|--plies=12",
    "--seed=7|--plies=12",
    "grow|--depth=3",
    "grow|--seed=7|--depth|3",
    "grow|--see=7|--plies=12",
    "grow|--seed=7|--pl|12",
    "grow|-s|7",
    "grow|--seed=7|--seed=8",
    "grow|--seed=7|--plies=12|--seed|7",
    "grow|--seed|7|--seed|7",
    "grow|7",
    "grow|--seed|7|12|--plies=12",
    "grow|--seed=|--plies=12",
    "grow|--seed||--plies=12",
    "grow|--seed=-7|--plies=12",
    "grow|--seed|-7|--plies=12",
    "grow|--seed|--plies=12",
    "grow|--seed=7|--plies",
    "grow|--seed=7|--",
    "grow|--|--seed=7",
    "grow|--",
];

/// Words, separated by `|`, and the values that they give the options of `match`.
const MATCH_ROWS: [(&str, [Option<&str>; 7]); 5] = [
    (
        "match|--white=a|--black=b|--type=c|--depth=d|--time=e|--margin=f|--plies=g",
        [
            Some("a"),
            Some("b"),
            Some("c"),
            Some("d"),
            Some("e"),
            Some("f"),
            Some("g"),
        ],
    ),
    (
        "match|--plies|g|--margin|f|--time|e|--depth|d|--type|c|--black|b|--white|a",
        [
            Some("a"),
            Some("b"),
            Some("c"),
            Some("d"),
            Some("e"),
            Some("f"),
            Some("g"),
        ],
    ),
    (
        "match|--black|hive uhp|--white=engine --level=3",
        [
            Some("engine --level=3"),
            Some("hive uhp"),
            None,
            None,
            None,
            None,
            None,
        ],
    ),
    (
        "match|--time=00:00:05|--margin|0",
        [None, None, None, None, Some("00:00:05"), Some("0"), None],
    ),
    ("match", [None, None, None, None, None, None, None]),
];

/// Words, separated by `|`, that are not those of `match` and its options.
const NO_MATCHES: [&str; 6] = [
    "match|--white=a|--black=b|--t=c",
    "match|--white=a|--black=b|--seed=7",
    "match|--white=a|--black=b|--white=a",
    "match|--white|a|--black|b|--|--type|c",
    "match|--white=a|--black=b|c",
    "match|--white=a|--black=-b",
];

fn words_of(alloc: Global, text: &str, separator: char) -> Result<Vec<String>, Fail> {
    let mut words = Vec::new(alloc);
    for word in text.split(separator) {
        words.push(String::from_str(alloc, word)?)?;
    }
    Ok(words)
}

#[test]
fn words_and_values(rt: HostRuntime) -> Result<(), Fail> {
    for (text, value) in ROWS {
        let words = words_of(rt.alloc(), text, ' ')?;
        let found = one_option(rt.alloc(), words.as_slice(), "count", "plies")?;
        assert_eq!(rt; found, value, "at {text}");
    }
    assert_eq!(rt; one_option(rt.alloc(), &[], "count", "plies")?, None);
    Ok(())
}

#[test]
fn two_options(rt: HostRuntime) -> Result<(), Fail> {
    let options = ["seed", "plies"];
    for (text, values) in GROW_ROWS {
        let words = words_of(rt.alloc(), text, '|')?;
        let given = options_of(rt.alloc(), words.as_slice(), "grow", &options)?.ok_or(text)?;
        for (index, value) in values.iter().enumerate() {
            assert_eq!(rt; given.value(index), *value, "at {text}");
        }
        assert_eq!(rt; given.value(2), None);
    }
    for text in NO_GROWS {
        let words = words_of(rt.alloc(), text, '|')?;
        let found = options_of(rt.alloc(), words.as_slice(), "grow", &options)?;
        assert!(rt; found.is_none(), "at {text}");
    }
    assert!(rt; options_of(rt.alloc(), &[], "grow", &options)?.is_none());
    Ok(())
}

#[test]
fn seven_options(rt: HostRuntime) -> Result<(), Fail> {
    let options = ["white", "black", "type", "depth", "time", "margin", "plies"];
    for (text, values) in MATCH_ROWS {
        let words = words_of(rt.alloc(), text, '|')?;
        let given = options_of(rt.alloc(), words.as_slice(), "match", &options)?.ok_or(text)?;
        for (index, value) in values.iter().enumerate() {
            assert_eq!(rt; given.value(index), *value, "at {text}");
        }
    }
    for text in NO_MATCHES {
        let words = words_of(rt.alloc(), text, '|')?;
        let found = options_of(rt.alloc(), words.as_slice(), "match", &options)?;
        assert!(rt; found.is_none(), "at {text}");
    }
    Ok(())
}

#[test]
fn another_command(rt: HostRuntime) -> Result<(), Fail> {
    let words = words_of(rt.alloc(), "certify --depth 12", ' ')?;
    let alloc = rt.alloc();
    assert_eq!(rt;
        one_option(alloc, words.as_slice(), "certify", "depth")?,
        Some("12")
    );
    assert_eq!(rt;
        one_option(alloc, words.as_slice(), "certify", "dept")?,
        None
    );
    assert_eq!(rt;
        one_option(alloc, words.as_slice(), "certif", "depth")?,
        None
    );
    Ok(())
}
