//! The match that the words ask for: its two programs, and how it is played.
ghost use Rattle.std.specs.Prelude.{
  ◌≡◌,
  ◌<◌,
  ◌↔◌,
  Bool,
  Some,
  length,
  map,
  option_map,
  string_bytes,
  IfOk,
  IfSome,
  IsTrue,
};
ghost use Rattle.match_core.specs.declared.setup.Setup.{Setup as AnySetup};
ghost use Rattle.match_core.specs.Keeps.{IsSetup};
ghost use Rattle.command_words.specs.Matches.{
  AreMatchWords,
  AskForMatchCare,
  AskForPrograms,
  IsMatchOf,
  IsProgram,
  between_spaces,
  choices_of,
  match_choices,
};

use crate::engine_limits::{EngineLimits, care_at};
use crate::program::{begins_words, words_of};
use crate::setup::{ChoiceTexts, rule_of, setup_of};
use match_core::Setup;
use option_words::{GivenOptions, options_of};
use std::alloc::{AllocError, Global};

/// The options of a match, in the order in which their values are asked for.
const OPTIONS: [&str; 11] = [
    "white",
    "black",
    "type",
    "depth",
    "time",
    "margin",
    "plies",
    "repetition",
    "patience",
    "quiet",
    "from",
];

/// Whether a text is a program and its words.
pub(crate) fn is_program(text: &str) -> bool
    ensures { IsTrue result ↔ IsProgram text.now }
{
    begins_words(text.as_bytes())
}

/// The texts of the options that have a default.
fn choices_in<'a>(given: &GivenOptions<'a>) -> ChoiceTexts<'a>
    ensures { choices_of result ≡ match_choices given.now }
{
    ChoiceTexts {
        game_type: given.value(2),
        depth: given.value(3),
        time: given.value(4),
        margin: given.value(5),
        plies: given.value(6),
        repetition: given.value(7),
        patience: given.value(8),
        quiet: given.value(9),
    }
}

/// The match that the words ask for.
#[derive(Clone, Copy)]
pub(crate) struct MatchAsked {
    pub(crate) setup: Setup,
    /// Whether it begins with a given game, in place of the opening.
    pub(crate) from: bool,
}

/// The match that the texts of the options with a default ask for. It is `None` if one of them is
/// not a value of its option, or if a type is given besides a given game.
fn match_in(texts: ChoiceTexts<'_>, from: Option<&str>) -> Option<MatchAsked>
    ensures found { IfSome result (λ m. IsMatchOf (choices_of texts.entry)
        (option_map (λ t. t.now) from.entry) m.setup m.from) }
    ensures only { (s : AnySetup) (f : Bool) → IsMatchOf (choices_of texts.entry)
        (option_map (λ t. t.now) from.entry) s f
        → result ≡ Some (record { setup = s; from = f }) }
{
    let from = rule_of(from)?;
    if from && texts.game_type.is_some() {
        return None;
    }
    let setup = setup_of(texts)?;
    Some(MatchAsked { setup, from })
}

/// How the match is played that the words ask for: `match` and its options. The programs of white
/// and of black are required. It is `None` if the words ask for no match. The only error is that
/// memory runs out before this is known.
pub(crate) fn match_of(alloc: Global, words: &[String]) -> Result<Option<MatchAsked>, AllocError>
    ensures found { IfOk result (λ o. IfSome o (λ m. AreMatchWords words.now m.setup m.from)) }
    ensures only { IfOk result (λ o. (s : AnySetup) (f : Bool) → AreMatchWords words.now s f
        → o ≡ Some (record { setup = s; from = f })) }
{
    let Some(given) = options_of(alloc, words, "match", &OPTIONS)? else {
        return Ok(None);
    };
    let Some(white) = given.value(0) else {
        return Ok(None);
    };
    let Some(black) = given.value(1) else {
        return Ok(None);
    };
    if !is_program(white) {
        return Ok(None);
    }
    if !is_program(black) {
        return Ok(None);
    }
    Ok(match_in(choices_in(&given), given.value(10)))
}

/// The care for its engines that the words of a match ask for. The only error is running out of
/// memory.
pub(crate) fn match_care(
    alloc: Global,
    words: &[String],
    setup: Setup,
    from: bool,
) -> Result<EngineLimits, AllocError>
    requires words { AreMatchWords words.now setup from }
    requires setup { IsSetup setup }
    ensures { IfOk result (λ care. AskForMatchCare words.now setup from care) }
{
    let Some(given) = options_of(alloc, words, "match", &OPTIONS)? else {
        unreachable!();
    };
    let texts = choices_in(&given);
    let Some(care) = care_at(texts.patience, texts.quiet, setup.level) else {
        unreachable!();
    };
    Ok(care)
}

/// A program with its words for each side, each of at least one word.
#[derive(Drop)]
pub struct Programs {
    pub white: Vec<String>,
    pub black: Vec<String>,
}

/// The programs of two texts.
fn programs_in(alloc: Global, white: &str, black: &str) -> Result<Programs, AllocError>
    ensures white { IfOk result (λ p. map string_bytes p.white.items ≡ between_spaces white.now) }
    ensures black { IfOk result (λ p. map string_bytes p.black.items ≡ between_spaces black.now) }
{
    let white = words_of(alloc, white)?;
    let black = words_of(alloc, black)?;
    Ok(Programs { white, black })
}

/// The programs of the match that the words ask for. For each side they are the words that its
/// option gives, separated by single spaces, in order.
pub fn programs_of(alloc: Global, words: &[String]) -> Result<Programs, AllocError>
    requires { (setup : AnySetup) × (from : Bool) × AreMatchWords words.now setup from }
    ensures white { IfOk result (λ p. 0 < length p.white.items) }
    ensures black { IfOk result (λ p. 0 < length p.black.items) }
    ensures programs { IfOk result (λ p. AskForPrograms words.now (map string_bytes p.white.items)
        (map string_bytes p.black.items)) }
{
    let Some(given) = options_of(alloc, words, "match", &OPTIONS)? else {
        unreachable!();
    };
    let Some(white) = given.value(0) else {
        unreachable!();
    };
    let Some(black) = given.value(1) else {
        unreachable!();
    };
    programs_in(alloc, white, black)
}
