//! How often a search reads the clock: once for each 256 plays if it has a deadline, otherwise
//! never.

ghost use Rattle.std.specs.Prelude.{
  ◌≡◌,
  ◌+◌,
  true,
  false,
  None,
  Some,
  is_some,
  IsTrue,
  if◌then◌else◌,
};
ghost use Rattle.io_edge.specs.Outside.{one_more};
ghost use Rattle.search_core.specs.Ticks.{is_due, has_come, HasStopped, KeepsTime};

use io_edge::Clock;
use std::marker::Model;

/// Counts plays and tells when a deadline has come.
#[derive(Drop)]
pub struct Ticker {
    deadline: Option<u64>,
    plays: u32,
    latest: u64,
}

impl Model for Ticker {
    ghost use Rattle.std.specs.Prelude.{◌<◌};
    ghost use Rattle.search_core.specs.Ticks.{Ticks};

    ghost Value = { Ticks };

    ghost view = { λ t. record { deadline = t.deadline; plays = t.plays; latest = t.latest } };

    ghost invariant = { λ t. t.plays < 256 };
}

impl Ticker {
    /// A ticker without a deadline. It never reads a clock.
    pub fn free() -> Ticker
        ensures { result ≡ record { deadline = None; plays = 0; latest = 0 } }
    {
        Ticker {
            deadline: None,
            plays: 0,
            latest: 0,
        }
    }

    /// A ticker with this deadline, in milliseconds of the clock.
    pub fn until(deadline: u64) -> Ticker
        ensures { result ≡ record { deadline = Some deadline; plays = 0; latest = 0 } }
    {
        Ticker {
            deadline: Some(deadline),
            plays: 0,
            latest: 0,
        }
    }

    /// The last reading of the clock, or 0 if it was not read yet.
    pub fn latest(&self) -> u64
        ensures { result ≡ self.now.latest }
    {
        self.latest
    }

    /// Counts a play, and returns whether the deadline has come. At each 256th play the clock is
    /// read once, and only then may the answer be true. Without a deadline nothing is counted.
    pub fn tick<C: Clock>(&mut self, clock: &mut C) -> bool
        ensures counted { is_due self.old ≡ false → (result ≡ false)
            × (self.new.plays ≡ (if is_some self.old.deadline then self.old.plays + 1 else
            self.old.plays)) }
        ensures read { is_due self.old ≡ true
            → (C.readings clock.new ≡ one_more (C.readings clock.old)) × (self.new.plays ≡ 0)
            × (result ≡ has_come self.old.deadline (C.last clock.new)) }
        ensures unread { is_due self.old ≡ false → (C.readings clock.new ≡ C.readings clock.old)
            × (C.last clock.new ≡ C.last clock.old) }
        ensures previous { IsTrue result → C.previous clock.new ≡ C.last clock.old }
        ensures stopped { IsTrue result → HasStopped self.old self.new (C.last clock.old)
            (C.last clock.new) (C.previous clock.new) }
        ensures time { KeepsTime self.old self.new (C.readings clock.old) (C.readings clock.new)
            (C.last clock.old) (C.last clock.new) 1 }
    {
        let Some(deadline) = self.deadline else {
            return false;
        };
        if self.plays < 255 {
            self.plays += 1;
            return false;
        }
        self.plays = 0;
        self.latest = clock.now();
        self.latest >= deadline
    }
}
