//! The machine's clock.
ghost use Rattle.std.specs.Prelude.{◌≡◌, ◌<◌, ◌≤◌, ◌^◌};

use io_edge::Clock;
use std::marker::Model;
use std::time::Duration;
use std::{io, time};

/// The greatest reading, in milliseconds: 2 to the power 62, minus 1.
const LAST_MOMENT: u128 = 4_611_686_018_427_387_903;

/// The machine's clock, which never goes back. If it cannot be read, it stands still.
///
/// Contracts see the last reading, the one before it, and how often it was read.
#[derive(Drop)]
pub struct MachineClock<'a, R: time::Clock> {
    rt: &'a R,
    last: u64,
    previous: u64,
    readings: u64,
}

impl<'a, R: time::Clock> Model for MachineClock<'a, R> {
    ghost use Rattle.std.specs.Prelude.{◌<◌, ◌^◌};
    ghost use Rattle.machine_edge.specs.States.{Readings};

    ghost Value = { Readings };

    ghost view = { λ c. record {
      last = c.last;
      previous = c.previous;
      readings = c.readings;
    } };

    ghost invariant = { λ c. c.last < 2 ^ 62 };
}

impl<'a, R: time::Clock> MachineClock<'a, R> {
    /// A clock that was not read yet.
    pub fn new(rt: &'a R) -> Self
        ensures { result ≡ record { last = 0; previous = 0; readings = 0 } }
    {
        MachineClock {
            rt,
            last: 0,
            previous: 0,
            readings: 0,
        }
    }
}

/// A moment in milliseconds, capped at the greatest reading.
fn held(moment: u128) -> u64
    ensures { result < 2 ^ 62 }
{
    if moment < LAST_MOMENT {
        moment as u64
    } else {
        LAST_MOMENT as u64
    }
}

/// The moment that was read, but never one before the last; the last one if none could be read.
fn moment_after(last: u64, reading: io::Result<Duration>) -> u64
    requires { last < 2 ^ 62 }
    ensures later { last ≤ result }
    ensures bound { result < 2 ^ 62 }
{
    match reading {
        Ok(moment) => held(moment.as_millis()).max(last),
        Err(_) => last,
    }
}

impl<'a, R: time::Clock> Clock for MachineClock<'a, R> {
    ghost last = { λ c. c.last };

    ghost previous = { λ c. c.previous };

    ghost readings = { λ c. c.readings };

    fn now(&mut self) -> u64 {
        let moment = moment_after(self.last, self.rt.monotonic());
        self.previous = self.last;
        self.last = moment;
        self.readings = self.readings.saturating_add(1);
        moment
    }
}
