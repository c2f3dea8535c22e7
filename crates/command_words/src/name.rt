//! The commands of the program, by the word that names each.
ghost use Rattle.std.specs.Prelude.{◌≡◌, None, map, string_bytes};
ghost use Rattle.command_words.specs.Names.{name_at, named};

/// The name of a command.
#[derive(Clone, Copy, Debug, PartialEq, Eq)]
pub enum Name {
    Uhp,
    Replay,
    Count,
    Grow,
    Certify,
    Check,
    Solve,
    Verify,
    Match,
    Cup,
    Book,
    Migrate,
    Audit,
    Tournament,
}

/// The command that a word names.
fn name_at(word: &str) -> Option<Name>
    ensures { result ≡ name_at word.now }
{
    match word {
        "uhp" => Some(Name::Uhp),
        "replay" => Some(Name::Replay),
        "count" => Some(Name::Count),
        "grow" => Some(Name::Grow),
        "certify" => Some(Name::Certify),
        "check" => Some(Name::Check),
        "solve" => Some(Name::Solve),
        "verify" => Some(Name::Verify),
        "match" => Some(Name::Match),
        "cup" => Some(Name::Cup),
        "book" => Some(Name::Book),
        "migrate" => Some(Name::Migrate),
        "audit" => Some(Name::Audit),
        "tournament" => Some(Name::Tournament),
        _ => None,
    }
}

/// The command that the first word names, or `uhp` if there is no word.
pub(crate) fn named(words: &[String]) -> Option<Name>
    ensures { result ≡ named (map string_bytes words.now) }
{
    match words {
        [] => Some(Name::Uhp),
        [word, ..] => name_at(word.as_str()),
    }
}
