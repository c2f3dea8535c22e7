//! Which command a line is.

ghost use Rattle.std.specs.Prelude.{◌≡◌, ◌≤◌, length, IfOk, IfErr};
ghost use Rattle.uhp_words.specs.declared.command.Command.{Command as AnyCommand};
ghost use Rattle.uhp_words.specs.declared.command.CommandFault.{CommandFault as AnyFault};
ghost use Rattle.uhp_words.specs.Grammar.{IsCommand, IsFault, AreWithin};
ghost use Rattle.uhp_words.specs.Spaces.{first_word, rest_of};
ghost use Rattle.uhp_words.specs.Reading.{
  alone,
  play_of,
  limit_of,
  undo_of,
  get_of,
  set_of,
  options_of,
  arguments_of,
  command_of,
};
ghost use Rattle.io_edge.specs.Lines.{greatest_line};

use crate::command::{Command, CommandFault};
use crate::span::span_of;
use crate::verb::{Verb, verb_at};
use crate::words::{after_spaces, before_spaces, first_word, is_word, rest_of};
use move_text::{read_number, read_time};

/// A command that takes no arguments.
fn alone(command: Command, rest: &[u8]) -> Option<Command>
    ensures { result ≡ alone command rest.now }
{
    if rest.is_empty() { Some(command) } else { None }
}

/// The move to play.
fn play_of(text: &[u8], rest: &[u8]) -> Option<Command>
    requires short { length text.now ≤ greatest_line }
    requires within { length rest.now ≤ length text.now }
    ensures { result ≡ play_of text.now rest.now }
{
    if rest.is_empty() {
        return None;
    }
    Some(Command::Play {
        text: span_of(text, rest, rest),
    })
}

/// How deep or how long to search.
fn limit_of(rest: &[u8]) -> Option<Command>
    ensures { result ≡ limit_of (first_word rest.now) (rest_of rest.now) }
{
    let word = first_word(rest);
    if word == b"depth".as_slice() {
        let depth = read_number(rest_of(rest), 1, 64)?;
        return Some(Command::BestDepth {
            depth: depth as u32,
        });
    }
    if word == b"time".as_slice() {
        let budget = read_time(rest_of(rest))?;
        return Some(Command::BestTime { budget });
    }
    None
}

/// How many plies to undo: one if no number is given.
fn undo_of(rest: &[u8]) -> Option<Command>
    ensures { result ≡ undo_of rest.now }
{
    if rest.is_empty() {
        return Some(Command::Undo { plies: 1 });
    }
    let plies = read_number(rest, 1, 999_999_999)?;
    Some(Command::Undo {
        plies: plies as u32,
    })
}

/// The option to report.
fn get_of(text: &[u8], name: &[u8]) -> Option<Command>
    requires short { length text.now ≤ greatest_line }
    requires within { length name.now ≤ length text.now }
    ensures { result ≡ get_of text.now name.now }
{
    if !is_word(name) {
        return None;
    }
    Some(Command::OptionGet {
        name: span_of(text, name, name),
    })
}

/// The option to set, and its value.
fn set_of(text: &[u8], both: &[u8]) -> Option<Command>
    requires short { length text.now ≤ greatest_line }
    requires within { length both.now ≤ length text.now }
    ensures { result ≡ set_of text.now both.now }
{
    let value = rest_of(both);
    if !is_word(value) {
        return None;
    }
    Some(Command::OptionSet {
        name: span_of(text, both, first_word(both)),
        value: span_of(text, value, value),
    })
}

/// What to do with the options: list them if nothing else is asked.
fn options_of(text: &[u8], rest: &[u8]) -> Option<Command>
    requires short { length text.now ≤ greatest_line }
    requires within { length rest.now ≤ length text.now }
    ensures { result ≡ options_of text.now rest.now }
{
    if rest.is_empty() {
        return Some(Command::Options);
    }
    let word = first_word(rest);
    if word == b"get".as_slice() {
        return get_of(text, rest_of(rest));
    }
    if word == b"set".as_slice() {
        return set_of(text, rest_of(rest));
    }
    None
}

/// The command of a first word and the rest of the line.
fn arguments_of(text: &[u8], verb: Verb, rest: &[u8]) -> Option<Command>
    requires short { length text.now ≤ greatest_line }
    requires within { length rest.now ≤ length text.now }
    ensures { result ≡ arguments_of text.now verb rest.now }
{
    match verb {
        Verb::Info => alone(Command::Info, rest),
        Verb::NewGame => Some(Command::NewGame {
            text: span_of(text, rest, rest),
        }),
        Verb::Play => play_of(text, rest),
        Verb::Pass => alone(Command::Pass, rest),
        Verb::ValidMoves => alone(Command::ValidMoves, rest),
        Verb::BestMove => limit_of(rest),
        Verb::Undo => undo_of(rest),
        Verb::Options => options_of(text, rest),
        Verb::Exit => alone(Command::Exit, rest),
    }
}

/// The command of a line, as its definition computes it.
#[tactic(auto, unfolding(crate::specs::Reading::command_of))]
fn command_of(line: &[u8]) -> Result<Command, CommandFault>
    requires { length line.now ≤ greatest_line }
    ensures { result ≡ command_of line.now }
{
    let text = before_spaces(line);
    let words = after_spaces(text);
    let Some(verb) = verb_at(first_word(words)) else {
        return Err(CommandFault::Unknown);
    };
    match arguments_of(text, verb, rest_of(words)) {
        Some(command) => Ok(command),
        None => Err(CommandFault::Arguments),
    }
}

/// The command that a line is. Spaces at both ends do not count. The first word ends at the first
/// space, and the rest begins after the spaces that follow.
///
/// # Errors
///
/// `Unknown` if the first word is not a command, as in an empty line. `Arguments` if it is one and
/// the rest does not have its form.
pub fn read_command(line: &[u8]) -> Result<Command, CommandFault>
    requires { length line.now ≤ greatest_line }
    ensures computes { result ≡ command_of line.now }
    ensures reads { IfOk result (λ c. IsCommand line.now c) }
    ensures only { (c : AnyCommand) → IsCommand line.now c → result ≡ Ok c }
    ensures refused { IfErr result (λ fault. IsFault line.now fault) }
    ensures each { (fault : AnyFault) → IsFault line.now fault → result ≡ Err fault }
    ensures within { IfOk result (λ c. AreWithin line.now c) }
{
    command_of(line)
}
