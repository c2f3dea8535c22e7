//! The audit that the words ask for: its program, and how the games are made.
ghost use Rattle.std.specs.Prelude.{
  ◌≡◌,
  ◌<◌,
  ℕ,
  MatchOption,
  Option,
  Some,
  option_map,
  length,
  map,
  string_bytes,
  if◌then◌else◌,
  IfOk,
  IfSome,
};
ghost use Rattle.hive_model.specs.declared.pieces.GameType.{GameType as AnyType};
ghost use Rattle.command_words.specs.declared.audits.AuditAsked.{AuditAsked as AnyAudit};
ghost use Rattle.command_words.specs.Audits.{
  AreAuditWords,
  AskForAuditCare,
  AskForAudited,
  AuditOptions,
  ChooseAudit,
  GiveAudit,
  IsMostOf,
  IsTypeGiven,
  options_in,
};

use crate::engine_limits::{EngineLimits, care_at};
use crate::matched::is_program;
use crate::program::words_of;
use crate::setup::{number_or, rule_of};
use hive_model::GameType;
use match_core::Level;
use move_text::{read_number, read_type};
use option_words::options_of;
use std::alloc::{AllocError, Global};

/// The options of an audit, in the order in which their values are asked for.
const OPTIONS: [&str; 10] = [
    "engine", "games", "seed", "plies", "type", "patience", "quiet", "stop", "first", "most",
];

/// The greatest number of games, and of findings, since a game has one at most.
const MOST_GAMES: u64 = 1_000_000;

/// No time is set for an answer, as in a match to a depth.
const UNTIMED: Level = Level::Depth { depth: 1 };

/// How the games of an audit are made.
#[derive(Clone, Copy, Debug, PartialEq, Eq)]
pub struct AuditAsked {
    /// The number of games: 1 to 1,000,000.
    pub games: u64,
    /// The number of the first one: 1 to 1,000,000,000.
    pub first: u64,
    /// The seed from which their moves are drawn.
    pub seed: u64,
    /// The most plies of a game: 1 to 1,000.
    pub plies: u32,
    /// The type of all games, if one is asked for.
    pub game_type: Option<GameType>,
    /// The number of findings that ends the audit: 1 to 1,000,000.
    pub most: u64,
    /// Whether the care sets a limit on the wait for the program.
    pub patient: bool,
}

/// The texts of the options of an audit.
#[derive(Clone, Copy)]
pub(crate) struct AuditTexts<'a> {
    pub(crate) engine: &'a str,
    pub(crate) games: &'a str,
    pub(crate) seed: &'a str,
    pub(crate) plies: Option<&'a str>,
    pub(crate) game_type: Option<&'a str>,
    pub(crate) patience: Option<&'a str>,
    pub(crate) quiet: Option<&'a str>,
    pub(crate) stop: Option<&'a str>,
    pub(crate) first: Option<&'a str>,
    pub(crate) most: Option<&'a str>,
}

/// The texts that the words give the options of an audit: `audit` and its options. The program, the
/// games and the seed are required. It is `None` if the words do not have this form. The only error
/// is that memory runs out before this is known.
fn texts_of<'a>(alloc: Global, words: &'a [String]) -> Result<Option<AuditTexts<'a>>, AllocError>
    ensures found { IfOk result (λ o. IfSome o (λ t. GiveAudit words.now (options_in t))) }
    ensures only { IfOk result (λ o. (given : AuditOptions) → GiveAudit words.now given
        → MatchOption o ⊥ (λ t. options_in t ≡ given)) }
{
    let Some(given) = options_of(alloc, words, "audit", &OPTIONS)? else {
        return Ok(None);
    };
    let Some(engine) = given.value(0) else {
        return Ok(None);
    };
    let Some(games) = given.value(1) else {
        return Ok(None);
    };
    let Some(seed) = given.value(2) else {
        return Ok(None);
    };
    Ok(Some(AuditTexts {
        engine,
        games,
        seed,
        plies: given.value(3),
        game_type: given.value(4),
        patience: given.value(5),
        quiet: given.value(6),
        stop: given.value(7),
        first: given.value(8),
        most: given.value(9),
    }))
}

/// The game type that is asked for, if any. It is `None` if the text is not a game type.
fn type_given(text: Option<&str>) -> Option<Option<GameType>>
    ensures found { IfSome result (λ t. IsTypeGiven (option_map (λ t. t.now) text.entry) t) }
    ensures only { (t : Option AnyType) → IsTypeGiven (option_map (λ t. t.now) text.entry) t
        → result ≡ Some t }
{
    match text {
        Some(text) => Some(Some(read_type(text.as_bytes())?)),
        None => Some(None),
    }
}

/// The number of findings that ends an audit, which the first one may stop.
fn ending(stops: bool, most: u64) -> u64
    ensures { result ≡ if stops then 1 else most }
{
    if stops { 1 } else { most }
}

/// How many findings end the audit, by the texts of `stop` and `most`, if they are given. It is
/// `None` if one of them is not a value of its option.
fn most_of(stop: Option<&str>, most: Option<&str>) -> Option<u64>
    ensures found { IfSome result (λ n. IsMostOf (option_map (λ t. t.now) stop.entry)
        (option_map (λ t. t.now) most.entry) n) }
    ensures only { (n : ℕ) → IsMostOf (option_map (λ t. t.now) stop.entry)
        (option_map (λ t. t.now) most.entry) n → result ≡ Some n }
{
    let stops = rule_of(stop)?;
    let number = number_or(most, 1, MOST_GAMES, MOST_GAMES)?;
    Some(ending(stops, number))
}

/// How the games are made, by these texts. It is `None` if one of them is not a value of its
/// option, including those of the program and of the care for it.
fn audit_at(texts: AuditTexts<'_>) -> Option<AuditAsked>
    ensures found { IfSome result (λ a. ChooseAudit (options_in texts.entry) a) }
    ensures only { (a : AnyAudit) → ChooseAudit (options_in texts.entry) a → result ≡ Some a }
{
    if !is_program(texts.engine) {
        return None;
    }
    let games = read_number(texts.games.as_bytes(), 1, MOST_GAMES)?;
    let first = number_or(texts.first, 1, 1_000_000_000, 1)?;
    let seed = read_number(texts.seed.as_bytes(), 0, u64::MAX)?;
    let plies = number_or(texts.plies, 1, 1000, 80)?;
    let game_type = type_given(texts.game_type)?;
    let most = most_of(texts.stop, texts.most)?;
    let care = care_at(texts.patience, texts.quiet, UNTIMED)?;
    Some(AuditAsked {
        games,
        first,
        seed,
        plies: plies as u32,
        game_type,
        most,
        patient: care.limit.is_some(),
    })
}

/// How the games are made in the audit that the words ask for. It is `None` if they ask for no
/// audit. The only error is that memory runs out before this is known.
pub(crate) fn audit_of(alloc: Global, words: &[String]) -> Result<Option<AuditAsked>, AllocError>
    ensures found { IfOk result (λ o. IfSome o (λ a. AreAuditWords words.now a)) }
    ensures only { IfOk result (λ o. (a : AnyAudit) → AreAuditWords words.now a → o ≡ Some a) }
{
    match texts_of(alloc, words)? {
        Some(texts) => Ok(audit_at(texts)),
        None => Ok(None),
    }
}

/// The care for its program that the words of an audit ask for. The only error is running out of
/// memory.
pub(crate) fn audit_care(alloc: Global, words: &[String]) -> Result<EngineLimits, AllocError>
    requires { (a : AnyAudit) × AreAuditWords words.now a }
    ensures { IfOk result (λ care. AskForAuditCare words.now care) }
{
    let Some(texts) = texts_of(alloc, words)? else {
        unreachable!();
    };
    let Some(care) = care_at(texts.patience, texts.quiet, UNTIMED) else {
        unreachable!();
    };
    Ok(care)
}

/// The program of the audit that the words ask for: the words that its option gives, separated by
/// single spaces, in order. The only error is running out of memory.
pub fn audited_of(alloc: Global, words: &[String]) -> Result<Vec<String>, AllocError>
    requires { (a : AnyAudit) × AreAuditWords words.now a }
    ensures some { IfOk result (λ program. 0 < length program.items) }
    ensures program { IfOk result (λ program. AskForAudited words.now
        (map string_bytes program.items)) }
{
    let Some(texts) = texts_of(alloc, words)? else {
        unreachable!();
    };
    words_of(alloc, texts.engine)
}
