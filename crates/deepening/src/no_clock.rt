//! The clock of a search without a deadline.

ghost use Rattle.std.specs.Prelude.{◌≡◌, ◌-◌, ◌^◌};
ghost use Rattle.io_edge.specs.Clocks.{TellsTime};

use io_edge::Clock;

/// No clock. A search without a deadline reads none. If it were read, it would answer 0.
///
/// Its count of readings is at its greatest value, that of a u64, so that it need not be kept.
#[derive(Drop)]
pub(crate) struct NoClock;

impl Clock for NoClock {
    ghost last = { λ c. 0 };

    ghost previous = { λ c. 0 };

    ghost readings = { λ c. 2 ^ 64 - 1 };

    fn now(&mut self) -> u64 {
        0
    }
}
