//! What shows how far a tournament is.
ghost use Rattle.std.specs.Prelude.{◌≡◌};
ghost use Rattle.tournament_core.specs.Schedules.{IsPlan};

use crate::clocks::StepClocks;
use cup::Program;
use tournament_core::{Plan, Tally};

/// What shows how far a tournament is.
pub trait Progress {
    /// Shows how far the tournament is, whose games so far are in the tally. The programs stand in
    /// the order of their engines' numbers. It is called behind each wave, once its lines were
    /// written.
    fn show(&self, programs: &[Program], plan: Plan, tally: &Tally)
        requires valid { IsPlan plan }
        requires engines { tally.now.engines ≡ plan.engines };
}

/// Nothing is shown.
impl Progress for StepClocks {
    fn show(&self, _programs: &[Program], _plan: Plan, _tally: &Tally) {}
}
