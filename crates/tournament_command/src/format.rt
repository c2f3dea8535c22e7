//! How a tournament is asked for.
ghost use Rattle.std.specs.Prelude.{◌≡◌, ◌≤◌, length};
ghost use Rattle.tournament_command.specs.Formats.{plan_of};

use hive_model::MoveList;
use match_core::Setup;
use tournament_core::Plan;

/// How a tournament is asked for, but for its engines and openings: how each of its matches is
/// played, how many rounds it has, 1 to 10,000, whether the first engine meets all others or every
/// engine every other one, how many games are played at once, 1 to 64, and whether games that were
/// played before are handed in.
#[derive(Clone, Copy, Debug, PartialEq, Eq)]
pub struct Format {
    pub setup: Setup,
    pub rounds: u32,
    pub gauntlet: bool,
    pub at_once: u32,
    pub resume: bool,
}

/// Who plays whom, where there are so many engines and these openings are given.
pub(crate) fn plan_of(engines: u32, format: Format, openings: &[MoveList]) -> Plan
    requires { length openings.now ≤ 100000 }
    ensures { result ≡ plan_of format engines openings.now }
{
    let many = openings.len() as u32;
    Plan {
        engines,
        rounds: format.rounds,
        openings: if many == 0 { 1 } else { many },
        gauntlet: format.gauntlet,
    }
}
