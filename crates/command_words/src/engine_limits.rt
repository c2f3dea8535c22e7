//! How the engines of a match, a cup, a tournament or an audit are treated.
ghost use Rattle.std.specs.Prelude.{◌≡◌, ◌≤◌, ℕ, None, Option, Some, IfSome, option_map};
ghost use Rattle.hive_model.specs.Fields.{IsTimeText};
ghost use Rattle.match_core.specs.Keeps.{IsLevel};
ghost use Rattle.command_words.specs.declared.engine_limits.EngineLimits.{EngineLimits as AnyCare};
ghost use Rattle.command_words.specs.Matches.{IsCareOf, IsLimitOf, time_of, usual_limit};

use crate::setup::rule_of;
use match_core::Level;
use move_text::read_time;

/// How much longer than its time and margin the wait for an engine is, in milliseconds.
const USUAL_PATIENCE: u64 = 10_000;

/// How the engines of a match, a cup, a tournament or an audit are treated.
#[derive(Clone, Copy, Debug, PartialEq, Eq)]
pub struct EngineLimits {
    /// The longest wait for an answer, in milliseconds, or `None` if there is no limit.
    pub limit: Option<u64>,
    /// Whether what the engines write on standard error is dropped.
    pub quiet: bool,
}

/// The milliseconds that an engine has for a move, its margin included; 0 at a depth.
fn time_of(level: Level) -> u64
    requires { IsLevel level }
    ensures value { result ≡ time_of level }
    ensures most { result ≤ 363599000 }
{
    match level {
        Level::Depth { .. } => 0,
        Level::Time { budget, margin } => budget + margin,
    }
}

/// The longest wait for an answer, in milliseconds, if no patience is given.
fn usual_limit(level: Level) -> Option<u64>
    requires { IsLevel level }
    ensures { result ≡ usual_limit level }
{
    match level {
        Level::Depth { .. } => None,
        Level::Time { budget, margin } => Some(budget + margin + USUAL_PATIENCE),
    }
}

/// The milliseconds of a patience, if the text is one.
fn patience_of(text: &str) -> Option<u64>
    ensures found { IfSome result (λ n. IsTimeText text.now n) }
    ensures only { (n : ℕ) → IsTimeText text.now n → result ≡ Some n }
    ensures most { IfSome result (λ n. n ≤ 359999000) }
{
    read_time(text.as_bytes())
}

/// The care with the patience that the text spells.
fn patient(text: &str, level: Level, quiet: bool) -> Option<EngineLimits>
    requires { IsLevel level }
    ensures limit { IfSome result (λ care. IsLimitOf (Some text.now) level care.limit) }
    ensures quiet { IfSome result (λ care. care.quiet ≡ quiet) }
    ensures only { (limit : Option ℕ) → IsLimitOf (Some text.now) level limit → result
        ≡ Some (record { limit = limit; quiet = quiet }) }
{
    let patience = patience_of(text)?;
    Some(EngineLimits {
        limit: Some(time_of(level) + patience),
        quiet,
    })
}

/// The care with this patience, if one is given.
fn waiting(patience: Option<&str>, level: Level, quiet: bool) -> Option<EngineLimits>
    requires { IsLevel level }
    ensures limit { IfSome result (λ care. IsLimitOf (option_map (λ t. t.now) patience.entry) level
        care.limit) }
    ensures quiet { IfSome result (λ care. care.quiet ≡ quiet) }
    ensures only { (limit : Option ℕ) → IsLimitOf (option_map (λ t. t.now) patience.entry) level
        limit → result ≡ Some (record { limit = limit; quiet = quiet }) }
{
    match patience {
        Some(text) => patient(text, level, quiet),
        None => Some(EngineLimits {
            limit: usual_limit(level),
            quiet,
        }),
    }
}

/// The care for engines that are asked at this level, by the texts of a patience and of `quiet`, if
/// they are given.
pub(crate) fn care_at(
    patience: Option<&str>,
    quiet: Option<&str>,
    level: Level,
) -> Option<EngineLimits>
    requires { IsLevel level }
    ensures found { IfSome result (λ care. IsCareOf (option_map (λ t. t.now) patience.entry)
        (option_map (λ t. t.now) quiet.entry) level care) }
    ensures only { (care : AnyCare) → IsCareOf (option_map (λ t. t.now) patience.entry)
        (option_map (λ t. t.now) quiet.entry) level care → result ≡ Some care }
{
    let quiet = rule_of(quiet)?;
    waiting(patience, level, quiet)
}
