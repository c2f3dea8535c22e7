//! The calls of what stands in memory: numbered from 1, and failing where their number is on a
//! list.
ghost use Rattle.std.specs.Prelude.{◌≡◌, ◌<◌, None, MatchOption, true, false};
ghost use Rattle.io_edge.specs.Outside.{one_more, HasCause};
ghost use Rattle.io_edge.specs.Calls.{Calls, new_calls, next_fails, CountsCall};

use std::marker::Model;

/// The numbers of the calls that fail, how many calls were made, and how many of these have failed.
#[derive(Drop)]
pub(crate) struct Calls {
    fails: Vec<u64>,
    made: u64,
    faults: u64,
}

impl Model for Calls {
    ghost Value = { Calls };

    ghost view = { λ c. record { failing = c.fails.items; made = c.made; faults = c.faults } };
}

impl Calls {
    /// No call was made yet.
    pub(crate) fn new(fails: Vec<u64>) -> Self
        ensures { result ≡ new_calls fails.items }
    {
        Calls {
            fails,
            made: 0,
            faults: 0,
        }
    }

    /// As new, with the same list.
    pub(crate) fn restart(&mut self)
        ensures { self.new ≡ new_calls self.old.failing }
    {
        self.made = 0;
        self.faults = 0;
    }

    /// How many calls have failed.
    pub(crate) fn faults(&self) -> u64
        ensures { result ≡ self.now.faults }
    {
        self.faults
    }

    /// Counts that a call has failed that was not to fail by the list.
    pub(crate) fn fail(&mut self)
        ensures counted { self.new ≡ record self.old { faults = one_more self.old.faults } }
        ensures cause { HasCause (Unit {0}) self.old.faults self.new.faults }
    {
        self.faults = self.faults.saturating_add(1);
    }

    /// Begins a call: its number, or none where it fails by the list.
    pub(crate) fn begin(&mut self) -> Option<u64>
        ensures number { MatchOption result (next_fails self.old ≡ true)
            (λ call. (next_fails self.old ≡ false) × (call ≡ self.new.made)) }
        ensures counted { CountsCall (result ≡ None) self.old self.new }
        ensures cause { HasCause (result ≡ None) self.old.faults self.new.faults }
        ensures first { 0 < self.new.made }
    {
        self.made = self.made.saturating_add(1);
        if self.fails.as_slice().contains(&self.made) {
            self.faults = self.faults.saturating_add(1);
            return None;
        }
        Some(self.made)
    }
}
