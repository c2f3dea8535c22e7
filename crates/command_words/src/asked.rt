//! What the words ask for.
ghost use Rattle.std.specs.Prelude.{
  ◌≡◌,
  ◌↔◌,
  [],
  ◌∷◌,
  Some,
  map,
  string_bytes,
  IfOk,
  IfSome,
  OnErr,
  IsTrue,
};
ghost use Rattle.command_words.specs.declared.asked.Asked.{Asked};
ghost use Rattle.command_words.specs.Names.{takes_option};
ghost use Rattle.command_words.specs.Words.{
  AreOfNoCommand,
  CaresFor,
  Finds,
  IsInRange,
  TakeOption,
  Words,
  name_of,
};

use crate::audits::{AuditAsked, audit_care, audit_of};
use crate::counted::count_of;
use crate::cups::{cup_care, cup_of};
use crate::engine_limits::EngineLimits;
use crate::grown::growth_of;
use crate::matched::{match_care, match_of};
use crate::name::{Name, named};
use crate::numbered::number_of;
use crate::replayed::replay_of;
use crate::tournaments::{TournamentAsked, tournament_care, tournament_of};
use match_core::Setup;
use std::alloc::{AllocError, Global};

/// What the words of the command line ask for.
#[derive(Clone, Copy, Debug, PartialEq, Eq)]
pub enum Asked {
    /// A session of the Universal Hive Protocol.
    Session,
    /// The written form of each game of the input, with the rule of third repetition on or off.
    Replay {
        repetition: bool,
    },
    /// The numbers of lists of up to this many legal moves, 1 to 8, counted by 1 to 16 workers. Or
    /// the parts of these counts in their place.
    Count {
        plies: u32,
        workers: u32,
        split: bool,
    },
    /// The game that a seed makes, of at most this number of plies: 1 to 1,000.
    Grow {
        seed: u64,
        plies: u32,
    },
    /// A certificate of the best move at this depth in plies: 1 to 64.
    Certify(u32),
    /// A check of a certificate.
    Check,
    /// Whether the side to move can force a win within this number of plies, 1 to 16, with a proof.
    Solve(u32),
    /// A check of such a proof.
    Verify,
    /// A match of the two programs that the words name, with this setup, from the opening or from a
    /// given game. In the latter case the match is of the type of that game.
    Match {
        setup: Setup,
        from: bool,
    },
    /// A cup of the programs that the words name, with each game played by this setup.
    Cup(Setup),
    /// The move of a position that was made most often in played games.
    Book,
    /// A certificate turned into one that cites what it has shown before.
    Migrate,
    /// An audit of the program that the words name, with games made in this way.
    Audit(AuditAsked),
    /// A tournament of the programs that the words name. It says how each of its matches is played
    /// and how many rounds it has (1 to 10,000). It says whether the first engine meets all others
    /// or each engine each other one. It says how many games are played at once (1 to 64), and
    /// whether games that were played before are handed in.
    Tournament {
        setup: Setup,
        rounds: u32,
        gauntlet: bool,
        at_once: u32,
        resume: bool,
    },
}

/// Whether the words are exactly this one.
fn are_alone(words: &[String], name: &str) -> bool
    ensures { IsTrue result ↔ map string_bytes words.now ≡ name.now ∷ [] }
{
    match words {
        [word] => word.as_str() == name,
        _ => false,
    }
}

/// A session is asked for by no word, or by its name alone.
fn session(words: &[String]) -> Option<Asked>
    ensures { Finds words.now Name.Uhp result }
{
    if words.is_empty() || are_alone(words, "uhp") {
        Some(Asked::Session)
    } else {
        None
    }
}

/// What the name of a command alone asks for, if that command takes nothing else.
fn by_name(words: &[String], name: &str, asked: Asked) -> Option<Asked>
    requires means { Words words.now asked ↔ map string_bytes words.now ≡ name.now ∷ [] }
    requires one { (a : Asked) → name_of a ≡ name_of asked → a ≡ asked }
    ensures { Finds words.now (name_of asked) result }
{
    if are_alone(words, name) {
        Some(asked)
    } else {
        None
    }
}

/// A replay is asked for by its name, alone or with the rule of third repetition on or off.
fn replay(alloc: Global, words: &[String]) -> Result<Option<Asked>, AllocError>
    ensures { IfOk result (Finds words.now Name.Replay) }
{
    Ok(replay_of(alloc, words)?.map(|repetition| Asked::Replay { repetition }))
}

/// Counts are asked for with a number of plies.
fn count(alloc: Global, words: &[String]) -> Result<Option<Asked>, AllocError>
    ensures { IfOk result (Finds words.now Name.Count) }
{
    let found = count_of(alloc, words)?;
    Ok(found.map(|one| Asked::Count {
        plies: one.plies,
        workers: one.workers,
        split: one.split,
    }))
}

/// A certificate is asked for with a depth.
fn certify(alloc: Global, words: &[String]) -> Result<Option<Asked>, AllocError>
    ensures { IfOk result (Finds words.now Name.Certify) }
{
    Ok(number_of(alloc, words, "certify", "depth", 1, 64)?.map(Asked::Certify))
}

/// A forced win is asked for with a number of plies.
fn solve(alloc: Global, words: &[String]) -> Result<Option<Asked>, AllocError>
    ensures { IfOk result (Finds words.now Name.Solve) }
{
    Ok(number_of(alloc, words, "solve", "plies", 1, 16)?.map(Asked::Solve))
}

/// A made game is asked for with a seed and a number of plies.
fn grow(alloc: Global, words: &[String]) -> Result<Option<Asked>, AllocError>
    ensures { IfOk result (Finds words.now Name.Grow) }
{
    let growth = growth_of(alloc, words)?;
    Ok(growth.map(|one| Asked::Grow {
        seed: one.seed,
        plies: one.plies,
    }))
}

/// A match is asked for with its two programs.
fn matched(alloc: Global, words: &[String]) -> Result<Option<Asked>, AllocError>
    ensures { IfOk result (Finds words.now Name.Match) }
{
    let found = match_of(alloc, words)?;
    Ok(found.map(|one| Asked::Match {
        setup: one.setup,
        from: one.from,
    }))
}

/// A cup is asked for with its programs.
fn cup(alloc: Global, words: &[String]) -> Result<Option<Asked>, AllocError>
    ensures { IfOk result (Finds words.now Name.Cup) }
{
    Ok(cup_of(alloc, words)?.map(Asked::Cup))
}

/// An audit is asked for with its program, a number of games and a seed.
fn audit(alloc: Global, words: &[String]) -> Result<Option<Asked>, AllocError>
    ensures { IfOk result (Finds words.now Name.Audit) }
{
    Ok(audit_of(alloc, words)?.map(Asked::Audit))
}

/// A tournament is asked for with its programs.
fn tournament(alloc: Global, words: &[String]) -> Result<Option<Asked>, AllocError>
    ensures { IfOk result (Finds words.now Name.Tournament) }
{
    let found = tournament_of(alloc, words)?;
    Ok(found.map(|one| Asked::Tournament {
        setup: one.setup,
        rounds: one.rounds,
        gauntlet: one.gauntlet,
        at_once: one.at_once,
        resume: one.resume,
    }))
}

/// What the words ask of this command.
fn asked_by(alloc: Global, words: &[String], name: Name) -> Result<Option<Asked>, AllocError>
    ensures asked { IfOk result (Finds words.now name) }
    ensures memory { OnErr result (IsTrue (takes_option name)) }
{
    match name {
        Name::Uhp => Ok(session(words)),
        Name::Replay => replay(alloc, words),
        Name::Count => count(alloc, words),
        Name::Grow => grow(alloc, words),
        Name::Certify => certify(alloc, words),
        Name::Check => Ok(by_name(words, "check", Asked::Check)),
        Name::Solve => solve(alloc, words),
        Name::Verify => Ok(by_name(words, "verify", Asked::Verify)),
        Name::Match => matched(alloc, words),
        Name::Cup => cup(alloc, words),
        Name::Book => Ok(by_name(words, "book", Asked::Book)),
        Name::Migrate => Ok(by_name(words, "migrate", Asked::Migrate)),
        Name::Audit => audit(alloc, words),
        Name::Tournament => tournament(alloc, words),
    }
}

/// What the words ask for, or `None` if they ask for nothing that the program does. The only error
/// is that memory runs out before this is known. It is possible only if the first word names a
/// command that takes an option. No list of words has two answers (`words_have_one_answer`).
pub fn asked_of(alloc: Global, words: &[String]) -> Result<Option<Asked>, AllocError>
    ensures asked { IfOk result (λ o. IfSome o (λ a. Words words.now a)) }
    ensures range { IfOk result (λ o. IfSome o (λ a. IsInRange a)) }
    ensures only { IfOk result (λ o. (a : Asked) → Words words.now a → o ≡ Some a) }
    ensures memory { OnErr result (TakeOption (map string_bytes words.now)) }
{
    match named(words) {
        Some(name) => asked_by(alloc, words, name),
        None => Ok(None),
    }
}

/// The care for its engines that is asked for. The only error is running out of memory.
fn asked_care(alloc: Global, words: &[String], asked: Asked) -> Result<EngineLimits, AllocError>
    requires asked { Words words.now asked }
    requires range { IsInRange asked }
    ensures care { IfOk result (CaresFor words.now asked) }
{
    match asked {
        Asked::Match { setup, from } => match_care(alloc, words, setup, from),
        Asked::Cup(setup) => cup_care(alloc, words, setup),
        Asked::Audit(_) => audit_care(alloc, words),
        Asked::Tournament {
            setup,
            rounds,
            gauntlet,
            at_once,
            resume,
        } => {
            let asked = TournamentAsked {
                setup,
                rounds,
                gauntlet,
                at_once,
                resume,
            };
            tournament_care(alloc, words, asked)
        }
        _ => Ok(EngineLimits {
            limit: None,
            quiet: false,
        }),
    }
}

/// The care for engines that the words ask for. If they ask for no match, cup, tournament or audit,
/// there is no limit on the wait for an engine. The only error is running out of memory. If the
/// words ask for nothing, it is possible only if the first names a command that takes an option.
pub fn care_of(alloc: Global, words: &[String]) -> Result<EngineLimits, AllocError>
    ensures care { IfOk result (λ care. (asked : Asked) → Words words.now asked
        → CaresFor words.now asked care) }
    ensures memory { AreOfNoCommand words.now
        → OnErr result (TakeOption (map string_bytes words.now)) }
{
    match asked_of(alloc, words)? {
        Some(asked) => asked_care(alloc, words, asked),
        None => Ok(EngineLimits {
            limit: None,
            quiet: false,
        }),
    }
}
