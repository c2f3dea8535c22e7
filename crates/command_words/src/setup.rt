//! How a match is played: the options with a default.
ghost use Rattle.std.specs.Prelude.{◌≡◌, ℕ, Bool, None, Some, IfSome, option_map};
ghost use Rattle.hive_model.specs.declared.pieces.GameType.{GameType as AnyType};
ghost use Rattle.match_core.specs.declared.setup.Level.{Level as AnyLevel};
ghost use Rattle.match_core.specs.declared.setup.Setup.{Setup as AnySetup};
ghost use Rattle.command_words.specs.Matches.{
  IsLevelOf,
  IsNumberOr,
  IsRuleOf,
  IsSetupOf,
  IsTypeOr,
  choices_of,
};

use crate::engine_limits::care_at;
use hive_model::GameType;
use match_core::{Level, Setup};
use move_text::{read_number, read_time, read_type};

/// The number from `least` to `most` that a text spells, or the default if there is no text.
pub(crate) fn number_or(text: Option<&str>, least: u64, most: u64, default: u64) -> Option<u64>
    ensures found { IfSome result (λ n. IsNumberOr (option_map (λ t. t.now) text.entry) least most
        default n) }
    ensures only { (n : ℕ) → IsNumberOr (option_map (λ t. t.now) text.entry) least most default n
        → result ≡ Some n }
{
    match text {
        Some(text) => read_number(text.as_bytes(), least, most),
        None => Some(default),
    }
}

/// Whether a switch is on, such as the rule of third repetition. The text `1` turns it on. With `0`
/// or no text it is off, and any other text gives `None`.
pub(crate) fn rule_of(text: Option<&str>) -> Option<bool>
    ensures found { IfSome result (λ r. IsRuleOf (option_map (λ t. t.now) text.entry) r) }
    ensures only { (r : Bool) → IsRuleOf (option_map (λ t. t.now) text.entry) r → result ≡ Some r }
{
    let number = number_or(text, 0, 1, 0)?;
    Some(number == 1)
}

/// The game type that a text names, or the base game if there is no text.
fn type_or(text: Option<&str>) -> Option<GameType>
    ensures found { IfSome result (λ t. IsTypeOr (option_map (λ t. t.now) text.entry) t) }
    ensures only { (t : AnyType) → IsTypeOr (option_map (λ t. t.now) text.entry) t
        → result ≡ Some t }
{
    match text {
        Some(text) => read_type(text.as_bytes()),
        None => Some(GameType {
            mosquito: false,
            ladybug: false,
            pillbug: false,
        }),
    }
}

/// The level at which the engines are asked with the time that a text spells.
fn timed_level(time: &str, margin: u64) -> Option<Level>
    ensures found { IfSome result (λ l. IsLevelOf None (Some time.now) margin l) }
    ensures only { (l : AnyLevel) → IsLevelOf None (Some time.now) margin l → result ≡ Some l }
{
    let budget = read_time(time.as_bytes())?;
    Some(Level::Time { budget, margin })
}

/// How the engines are asked, if at most one of depth and time is given.
fn level_of(depth: Option<&str>, time: Option<&str>, margin: u64) -> Option<Level>
    ensures found { IfSome result (λ l. IsLevelOf (option_map (λ t. t.now) depth.entry)
        (option_map (λ t. t.now) time.entry) margin l) }
    ensures only { (l : AnyLevel) → IsLevelOf (option_map (λ t. t.now) depth.entry)
        (option_map (λ t. t.now) time.entry) margin l → result ≡ Some l }
{
    match (depth, time) {
        (depth, None) => {
            let depth = number_or(depth, 1, 64, 2)?;
            Some(Level::Depth {
                depth: depth as u32,
            })
        }
        (None, Some(time)) => timed_level(time, margin),
        (Some(_), Some(_)) => None,
    }
}

/// The texts of the options with a default, if they are given.
#[derive(Clone, Copy)]
pub(crate) struct ChoiceTexts<'a> {
    pub(crate) game_type: Option<&'a str>,
    pub(crate) depth: Option<&'a str>,
    pub(crate) time: Option<&'a str>,
    pub(crate) margin: Option<&'a str>,
    pub(crate) plies: Option<&'a str>,
    pub(crate) repetition: Option<&'a str>,
    pub(crate) patience: Option<&'a str>,
    pub(crate) quiet: Option<&'a str>,
}

/// The setup of a match, by the texts of the options with a default. It is `None` if one of them is
/// not a value of its option, including those on the care for engines.
pub(crate) fn setup_of(texts: ChoiceTexts<'_>) -> Option<Setup>
    ensures found { IfSome result (λ s. IsSetupOf (choices_of texts.entry) s) }
    ensures only { (s : AnySetup) → IsSetupOf (choices_of texts.entry) s → result ≡ Some s }
{
    let game_type = type_or(texts.game_type)?;
    let margin = number_or(texts.margin, 0, 3_600_000, 1000)?;
    let level = level_of(texts.depth, texts.time, margin)?;
    let limit = number_or(texts.plies, 1, 1000, 400)?;
    let repetition = rule_of(texts.repetition)?;
    let _care = care_at(texts.patience, texts.quiet, level)?;
    Some(Setup {
        game_type,
        level,
        limit: limit as u32,
        repetition,
    })
}
