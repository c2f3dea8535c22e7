//! The tournament that the words ask for: its programs, and how it is played.
ghost use Rattle.std.specs.Prelude.{◌≡◌, ◌≤◌, ℕ, Bool, Some, length, IfOk, IfSome};
ghost use Rattle.match_core.specs.declared.setup.Setup.{Setup as AnySetup};
ghost use Rattle.match_core.specs.Keeps.{IsSetup};
ghost use Rattle.command_words.specs.Matches.{choices_of};
ghost use Rattle.command_words.specs.Tournaments.{
  AreTournamentWords,
  AskForTournamentCare,
  AskForTournamentEngines,
  ChooseTournament,
  tournament_choices,
};

use crate::engine_limits::{EngineLimits, care_at};
use crate::engines::{are_programs, programs_in};
use crate::setup::{ChoiceTexts, number_or, rule_of, setup_of};
use cup::Program;
use match_core::Setup;
use option_words::{GivenOptions, options_of};
use std::alloc::{AllocError, Global};

/// The options of a tournament, in the order in which their values are asked for.
const OPTIONS: [&str; 13] = [
    "engines",
    "type",
    "depth",
    "time",
    "margin",
    "plies",
    "repetition",
    "patience",
    "quiet",
    "rounds",
    "at-once",
    "gauntlet",
    "resume",
];

/// The greatest number of programs of a tournament.
const MOST_PROGRAMS: usize = 64;

/// The texts of the options that a match has too.
fn choices_in<'a>(given: &GivenOptions<'a>) -> ChoiceTexts<'a>
    ensures { choices_of result ≡ tournament_choices given.now }
{
    ChoiceTexts {
        game_type: given.value(1),
        depth: given.value(2),
        time: given.value(3),
        margin: given.value(4),
        plies: given.value(5),
        repetition: given.value(6),
        patience: given.value(7),
        quiet: given.value(8),
    }
}

/// The tournament that the words ask for.
#[derive(Clone, Copy)]
pub(crate) struct TournamentAsked {
    pub(crate) setup: Setup,
    pub(crate) rounds: u32,
    /// Whether only the first engine meets all others, and not each engine each other one.
    pub(crate) gauntlet: bool,
    /// The number of games that are played at once.
    pub(crate) at_once: u32,
    /// Whether games that were played before are handed in.
    pub(crate) resume: bool,
}

/// The tournament that the values of the options ask for, without the programs. It is `None` if one
/// of them is not a value of its option.
fn tournament_in(given: &GivenOptions<'_>) -> Option<TournamentAsked>
    ensures found { IfSome result (λ t. ChooseTournament given.now t.setup t.rounds t.gauntlet
        t.at_once t.resume) }
    ensures only { (s : AnySetup) (r : ℕ) (g : Bool) (n : ℕ) (p : Bool)
        → ChooseTournament given.now s r g n p
        → result ≡ Some (record {
          setup = s;
          rounds = r;
          gauntlet = g;
          at_once = n;
          resume = p;
        }) }
{
    let setup = setup_of(choices_in(given))?;
    let rounds = number_or(given.value(9), 1, 10_000, 1)?;
    let at_once = number_or(given.value(10), 1, 64, 1)?;
    let gauntlet = rule_of(given.value(11))?;
    let resume = rule_of(given.value(12))?;
    Some(TournamentAsked {
        setup,
        rounds: rounds as u32,
        gauntlet,
        at_once: at_once as u32,
        resume,
    })
}

/// How the tournament is played that the words ask for: `tournament` and its options. The programs
/// are required. It is `None` if the words ask for no tournament. The only error is that memory
/// runs out before this is known.
pub(crate) fn tournament_of(
    alloc: Global,
    words: &[String],
) -> Result<Option<TournamentAsked>, AllocError>
    ensures found { IfOk result (λ o. IfSome o (λ t. AreTournamentWords words.now t.setup t.rounds
        t.gauntlet t.at_once t.resume)) }
    ensures only { IfOk result (λ o. (s : AnySetup) (r : ℕ) (g : Bool) (n : ℕ) (p : Bool)
        → AreTournamentWords words.now s r g n p
        → o ≡ Some (record {
          setup = s;
          rounds = r;
          gauntlet = g;
          at_once = n;
          resume = p;
        })) }
{
    let Some(given) = options_of(alloc, words, "tournament", &OPTIONS)? else {
        return Ok(None);
    };
    let Some(engines) = given.value(0) else {
        return Ok(None);
    };
    if !are_programs(alloc, engines, MOST_PROGRAMS)? {
        return Ok(None);
    }
    Ok(tournament_in(&given))
}

/// The care for its engines that the words of a tournament ask for. The only error is running out
/// of memory.
pub(crate) fn tournament_care(
    alloc: Global,
    words: &[String],
    asked: TournamentAsked,
) -> Result<EngineLimits, AllocError>
    requires words { AreTournamentWords words.now asked.setup asked.rounds asked.gauntlet
        asked.at_once asked.resume }
    requires setup { IsSetup asked.setup }
    ensures { IfOk result (λ care. AskForTournamentCare words.now asked.setup asked.rounds
        asked.gauntlet asked.at_once asked.resume care) }
{
    let Some(given) = options_of(alloc, words, "tournament", &OPTIONS)? else {
        unreachable!();
    };
    let texts = choices_in(&given);
    let Some(care) = care_at(texts.patience, texts.quiet, asked.setup.level) else {
        unreachable!();
    };
    Ok(care)
}

/// The programs of the tournament that the words ask for: the texts between the semicolons of the
/// value of `engines`, in order. The only error is running out of memory.
pub fn tournament_engines_of(alloc: Global, words: &[String]) -> Result<Vec<Program>, AllocError>
    requires { (s : AnySetup) × (r : ℕ) × (g : Bool) × (n : ℕ) × (p : Bool)
        × AreTournamentWords words.now s r g n p }
    ensures some { IfOk result (λ e. 2 ≤ length e.items) }
    ensures few { IfOk result (λ e. length e.items ≤ 64) }
    ensures engines { IfOk result (λ e. AskForTournamentEngines words.now e.items) }
{
    let Some(given) = options_of(alloc, words, "tournament", &OPTIONS)? else {
        unreachable!();
    };
    let Some(engines) = given.value(0) else {
        unreachable!();
    };
    programs_in(alloc, engines)
}
