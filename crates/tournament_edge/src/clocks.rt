//! A clock for each game.
ghost use Rattle.std.specs.Prelude.{◌≡◌, min};
ghost use Rattle.io_edge.specs.Clocks.{last_moment};

use io_edge::{Clock, StepClock};

/// What hands out clocks. Games that are played at once have a clock each.
pub trait Clocks {
    type Each: Clock + Send + Drop;

    /// A clock for one game.
    fn clock(&self) -> Self::Each;
}

/// Clocks in memory that all go alike: the first reading of each, in milliseconds, and the step
/// from each reading to the next one.
#[derive(Clone, Copy, Debug, PartialEq, Eq)]
pub struct StepClocks {
    pub start: u64,
    pub step: u64,
}

impl Clocks for StepClocks {
    type Each = StepClock;

    fn clock(&self) -> StepClock
        ensures { result ≡ record {
          next = min self.now.start last_moment;
          step = self.now.step;
          last = 0;
          previous = 0;
          readings = 0;
        } }
    {
        StepClock::new(self.start, self.step)
    }
}
