//! The cup that the words ask for: its programs, and how each game is played.
ghost use Rattle.std.specs.Prelude.{◌≡◌, ◌≤◌, Some, length, IfOk, IfSome};
ghost use Rattle.match_core.specs.declared.setup.Setup.{Setup as AnySetup};
ghost use Rattle.match_core.specs.Keeps.{IsSetup};
ghost use Rattle.command_words.specs.Cups.{AreCupWords, AskForCupCare, AskForEngines};

use crate::engine_limits::{EngineLimits, care_at};
use crate::engines::{are_programs, programs_in};
use crate::setup::{ChoiceTexts, setup_of};
use cup::Program;
use match_core::Setup;
use option_words::options_of;
use std::alloc::{AllocError, Global};

/// The options of a cup, in the order in which their values are asked for.
const OPTIONS: [&str; 6] = ["engines", "type", "depth", "plies", "patience", "quiet"];

/// The greatest number of programs of a cup.
const MOST_PROGRAMS: usize = 8;

/// How each game is played in the cup that the words ask for: `cup` and its options. The programs
/// are required. The rule of third repetition is off. It is `None` if the words ask for no cup. The
/// only error is that memory runs out before this is known.
pub(crate) fn cup_of(alloc: Global, words: &[String]) -> Result<Option<Setup>, AllocError>
    ensures found { IfOk result (λ o. IfSome o (λ s. AreCupWords words.now s)) }
    ensures only { IfOk result (λ o. (s : AnySetup) → AreCupWords words.now s → o ≡ Some s) }
{
    let Some(given) = options_of(alloc, words, "cup", &OPTIONS)? else {
        return Ok(None);
    };
    let Some(engines) = given.value(0) else {
        return Ok(None);
    };
    if !are_programs(alloc, engines, MOST_PROGRAMS)? {
        return Ok(None);
    }
    Ok(setup_of(ChoiceTexts {
        game_type: given.value(1),
        depth: given.value(2),
        time: None,
        margin: None,
        plies: given.value(3),
        repetition: None,
        patience: given.value(4),
        quiet: given.value(5),
    }))
}

/// The care for its engines that the words of a cup ask for. The only error is running out of
/// memory.
pub(crate) fn cup_care(
    alloc: Global,
    words: &[String],
    setup: Setup,
) -> Result<EngineLimits, AllocError>
    requires words { AreCupWords words.now setup }
    requires setup { IsSetup setup }
    ensures { IfOk result (λ care. AskForCupCare words.now setup care) }
{
    let Some(given) = options_of(alloc, words, "cup", &OPTIONS)? else {
        unreachable!();
    };
    let Some(care) = care_at(given.value(4), given.value(5), setup.level) else {
        unreachable!();
    };
    Ok(care)
}

/// The programs of the cup that the words ask for: the texts between the semicolons of the value of
/// `engines`, in order. The only error is running out of memory.
pub fn engines_of(alloc: Global, words: &[String]) -> Result<Vec<Program>, AllocError>
    requires { (setup : AnySetup) × AreCupWords words.now setup }
    ensures some { IfOk result (λ e. 2 ≤ length e.items) }
    ensures few { IfOk result (λ e. length e.items ≤ 8) }
    ensures engines { IfOk result (λ e. AskForEngines words.now e.items) }
{
    let Some(given) = options_of(alloc, words, "cup", &OPTIONS)? else {
        unreachable!();
    };
    let Some(engines) = given.value(0) else {
        unreachable!();
    };
    programs_in(alloc, engines)
}
