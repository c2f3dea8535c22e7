//! Clocks in memory, which count their readings.
ghost use Rattle.std.specs.Prelude.{◌≡◌, ◌<◌, ◌≤◌, ◌+◌, ◌^◌, min, drop, vec_len};
ghost use Rattle.io_edge.specs.Clocks.{
  StepState,
  ClockState,
  TellsTime,
  last_moment,
  reading_after,
};

use crate::starts::Clock;
use std::marker::Model;

/// The greatest reading, in milliseconds: 2 to the power 62, less 1.
const LAST_MOMENT: u64 = 4611686018427387903;

/// A clock whose readings go up by one step, and then stand at the greatest reading.
///
/// Contracts see the reading to come, the step, the last reading, the one before it, and how often
/// it was read.
#[derive(Drop)]
pub struct StepClock {
    next: u64,
    step: u64,
    last: u64,
    previous: u64,
    readings: u64,
}

impl Model for StepClock {
    ghost Value = { StepState };

    ghost view = { λ c. record {
      next = c.next;
      step = c.step;
      last = c.last;
      previous = c.previous;
      readings = c.readings;
    } };

    ghost invariant = { λ c. (c.last ≤ c.next) × (c.next < 2 ^ 62) };
}

impl StepClock {
    /// A clock whose first reading is `start`, in milliseconds, and each later one greater by
    /// `step`. A reading is held at 2 to the power 62, less 1.
    pub fn new(start: u64, step: u64) -> Self
        ensures { result ≡ record {
          next = min start last_moment;
          step = step;
          last = 0;
          previous = 0;
          readings = 0;
        } }
    {
        StepClock {
            next: start.min(LAST_MOMENT),
            step,
            last: 0,
            previous: 0,
            readings: 0,
        }
    }
}

impl Clock for StepClock {
    ghost last = { λ c. c.last };

    ghost previous = { λ c. c.previous };

    ghost readings = { λ c. c.readings };

    /// The reading to come, in milliseconds; the one after it is greater by the step.
    fn now(&mut self) -> u64
        ensures time { TellsTime result self.old.last self.new.last self.old.readings
            self.new.readings }
        ensures previous { self.new.previous ≡ self.old.last }
        ensures answer { result ≡ self.old.next }
        ensures next { self.new.next ≡ min (self.old.next + self.old.step) last_moment }
        ensures step { self.new.step ≡ self.old.step }
    {
        let moment = self.next;
        self.previous = self.last;
        self.last = moment;
        self.next = moment.saturating_add(self.step).min(LAST_MOMENT);
        self.readings = self.readings.saturating_add(1);
        moment
    }
}

/// A clock over a list of readings, of which the last one repeats.
///
/// Contracts see the readings to come, the last reading, the one before it, and how often it was
/// read.
#[derive(Drop)]
pub struct MemClock {
    moments: Vec<u64>,
    at: usize,
    last: u64,
    previous: u64,
    count: u64,
}

impl Model for MemClock {
    ghost Value = { ClockState };

    ghost view = { λ c. record {
      coming = drop c.at c.moments.items;
      last = c.last;
      previous = c.previous;
      readings = c.count;
    } };

    ghost invariant = { λ c. (c.at ≤ vec_len c.moments) × (c.last < 2 ^ 62) };
}

impl MemClock {
    /// A clock with these readings in turn, in milliseconds. It makes no list of its own, and so it
    /// takes no allocator.
    ///
    /// A reading below the one before answers the one before, each is cut to 2 to the power 62,
    /// less 1, the last one repeats, and an empty list means readings of 0.
    pub fn new(readings: Vec<u64>) -> Self
        ensures { result ≡ record {
          coming = readings.items;
          last = 0;
          previous = 0;
          readings = 0;
        } }
    {
        MemClock {
            moments: readings,
            at: 0,
            last: 0,
            previous: 0,
            count: 0,
        }
    }
}

impl Clock for MemClock {
    ghost last = { λ c. c.last };

    ghost previous = { λ c. c.previous };

    ghost readings = { λ c. c.readings };

    /// The next reading of the list, in milliseconds, or the last one again.
    fn now(&mut self) -> u64
        ensures time { TellsTime result self.old.last self.new.last self.old.readings
            self.new.readings }
        ensures previous { self.new.previous ≡ self.old.last }
        ensures answer { result ≡ reading_after self.old.last self.old.coming }
        ensures coming { self.new.coming ≡ drop 1 self.old.coming }
    {
        self.previous = self.last;
        if let Some(moment) = self.moments.get(self.at) {
            self.last = (*moment).min(LAST_MOMENT).max(self.last);
            self.at += 1;
        }
        self.count = self.count.saturating_add(1);
        self.last
    }
}
