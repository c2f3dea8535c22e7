//! The values of the options of a command.
ghost use Rattle.std.specs.Prelude.{
  ◌≡◌,
  ◌<◌,
  ◌↔◌,
  ◌||◌,
  List,
  ℕ,
  Option,
  All,
  map,
  length,
  codes,
  IfOk,
  IfSome,
  IsTrue,
  MatchOption,
  string_bytes,
};
ghost use Rattle.std.specs.List.{list_any};
ghost use Rattle.std.specs.Str.{bytes_eq};
ghost use Rattle.option_words.specs.Options.{GiveOne, Gives, IsValue, are_names, names_of};

use crate::given::GivenOptions;
use crate::parse::parsed_values;
use std::alloc::{AllocError, Global};

/// Whether the word is a value: it is not empty and does not begin with `-`.
fn is_value(word: &str) -> bool
    ensures { IsTrue result ↔ IsValue word.now }
{
    match word.as_bytes() {
        [] => false,
        [first, ..] => *first != b'-',
    }
}

/// Whether each word that is present is a value.
fn are_values(words: &[Option<&str>]) -> bool
    ensures { IsTrue result ↔ All (λ word. IfSome word (λ text. IsValue text.now)) words.now }
{
    words.iter().all(|word| word.is_none_or(is_value))
}

/// Whether one of the words is exactly `--`.
fn has_dashes(words: &[String]) -> bool
    ensures { result ≡ list_any (λ word. bytes_eq (string_bytes word) (codes "--")) words.now }
{
    words.iter().any(|word| word.as_str() == "--")
}

/// The value of each of a command's options, in the order of `options`, if the words have this
/// form. The first word is the command. For each option that is given, `--option=value` or
/// `--option value` follows, in any order. A value is not empty and does not begin with `-`. The
/// names of the options are not empty.
///
/// It is `None` if the words do not have this form: at another command, another or an abbreviated
/// option, a second use of one, a name without a value, or any further word. The only error is
/// running out of memory.
pub fn options_of<'a>(
    alloc: Global,
    words: &'a [String],
    command: &'a str,
    options: &[&'a str],
) -> Result<Option<GivenOptions<'a>>, AllocError>
    requires { IsTrue (are_names (names_of options.now)) }
    ensures values { IfOk result (λ found. IfSome found (λ given.
        Gives (map string_bytes words.now) command.now (names_of options.now) given)) }
    ensures only { IfOk result (λ found. (values : List (Option (List ℕ)))
        → Gives (map string_bytes words.now) command.now (names_of options.now) values
        → MatchOption found ⊥ (λ given. given ≡ values)) }
{
    let Some((first, rest)) = words.split_first() else {
        return Ok(None);
    };
    // `clap` ignores a last `--`, which is not an item
    if first.as_str() != command || has_dashes(rest) {
        return Ok(None);
    }
    let Some(values) = parsed_values(alloc, rest, command, options)? else {
        return Ok(None);
    };
    // it also accepts a value that is empty or, in one word with the name, begins with `-`
    if !are_values(values.as_slice()) {
        return Ok(None);
    }
    Ok(Some(GivenOptions::new(values)))
}

/// The value of the one option of a command, which is required, if the words have the form that
/// `options_of` reads. It is `None` if they do not have it or do not give the option. The only
/// error is running out of memory.
pub fn one_option<'a>(
    alloc: Global,
    words: &'a [String],
    command: &'a str,
    option: &'a str,
) -> Result<Option<&'a str>, AllocError>
    requires { 0 < length option.now }
    ensures value { IfOk result (λ found. IfSome found (λ value.
        GiveOne (map string_bytes words.now) command.now option.now value.now)) }
    ensures only { IfOk result (λ found. (value : List ℕ)
        → GiveOne (map string_bytes words.now) command.now option.now value
        → MatchOption found ⊥ (λ text. text.now ≡ value)) }
{
    match options_of(alloc, words, command, &[option])? {
        Some(given) => Ok(given.value(0)),
        None => Ok(None),
    }
}
