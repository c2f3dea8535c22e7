//! The parse of the words after a command.
ghost use Rattle.std.specs.Prelude.{◌≡◌, IfOk, map, option_map, string_bytes, false};
ghost use Rattle.clap.specs.Matches.{first_value, found_of};
ghost use Rattle.clap.specs.Simple.{app_of};
ghost use Rattle.clap.specs.Walk.{rule_of};
ghost use Rattle.option_words.specs.Options.{names_of, values_of};
ghost use Rattle.option_words.specs.Parse.{option_app, option_rule, parsed};

use clap::error::ErrorKind;
use clap::{Arg, ArgAction, ArgMatches, Command};
use std::alloc::{AllocError, Global};

/// The option, with its long name only.
fn option_arg<'a>(alloc: Global, option: &'a str) -> Arg<'a>
    ensures rule { rule_of result ≡ option_rule option.now }
    ensures local { result.global ≡ false }
{
    Arg::new(alloc, option).long(option).action(ArgAction::Set)
}

/// The command with these options, and no flag for help or the version.
fn parser_of<'a>(
    alloc: Global,
    command: &'a str,
    options: &[&'a str],
) -> Result<Command<'a>, AllocError>
    ensures { IfOk result (λ parser. app_of parser
        ≡ option_app command.now (names_of options.now)) }
{
    let mut parser = Command::new(alloc, command)
        .no_binary_name(true)
        .disable_help_flag(true)
        .disable_version_flag(true);
    for option in options {
        parser = parser.arg(option_arg(alloc, option))?;
    }
    Ok(parser)
}

/// The value that was found for each of the options.
fn found_values<'a>(
    alloc: Global,
    matches: &ArgMatches<'a>,
    options: &[&str],
) -> Result<Vec<Option<&'a str>>, AllocError>
    ensures { IfOk result (λ values. values_of values.items
        ≡ map (first_value (found_of matches.now)) (names_of options.now)) }
{
    let mut values = Vec::new(alloc);
    for name in options {
        values.push(matches.get_str(name))?;
    }
    Ok(values)
}

/// The value that `clap` finds for each option in the words after the command. It is `None` if
/// `clap` refuses the words. The only error is running out of memory.
pub(crate) fn parsed_values<'a>(
    alloc: Global,
    words: &'a [String],
    command: &'a str,
    options: &[&'a str],
) -> Result<Option<Vec<Option<&'a str>>>, AllocError>
    ensures { IfOk result (λ found. option_map (λ values. values_of values.items) found
        ≡ parsed command.now (names_of options.now) (map string_bytes words.now)) }
{
    let parser = parser_of(alloc, command, options)?;
    match parser.try_get_matches_from(words) {
        Ok(matches) => Ok(Some(found_values(alloc, &matches, options)?)),
        Err(error) if error.kind() == ErrorKind::OutOfMemory => Err(AllocError),
        Err(_) => Ok(None),
    }
}
