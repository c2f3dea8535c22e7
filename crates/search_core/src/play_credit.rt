//! The plays that a search has saved, and how they pay for early tries.

ghost use Rattle.std.specs.Prelude.{
  ◌≡◌,
  ◌+◌,
  ◌↔◌,
  ◌≤◌,
  true,
  false,
  IsTrue,
  if◌then◌else◌,
};

/// The plays that a search has saved. A move that the game values without a play is counted like a
/// played one, so it saves one play. A move that is tried early is paid for from the credit, one
/// play at a time, as long as something is left.
#[derive(Drop)]
pub(crate) struct PlayCredit {
    pub(crate) saved: u64,
    /// Whether each play is paid for from the credit.
    pub(crate) early: bool,
}

impl PlayCredit {
    /// A credit in which nothing is saved yet.
    pub(crate) fn empty() -> PlayCredit
        ensures { result ≡ record { saved = 0; early = false } }
    {
        PlayCredit {
            saved: 0,
            early: false,
        }
    }

    /// Adds the play that a move valued without a play saves, but not within an early try.
    pub(crate) fn save(&mut self)
        ensures mode { self.new.early ≡ self.old.early }
        ensures one { self.new.saved ≤ self.old.saved + 1 }
        ensures early { self.old.early ≡ true → self.new.saved ≡ self.old.saved }
    {
        if self.early || self.saved == u64::MAX {
            return;
        }
        self.saved += 1;
    }

    /// Pays for a play within an early try, and returns whether it may be made. The last saved play
    /// is never spent. So nothing is left exactly if a play could not be paid for.
    pub(crate) fn pay(&mut self) -> bool
        ensures mode { self.new.early ≡ self.old.early }
        ensures paid { IsTrue result
            → self.new.saved + (if self.old.early then 1 else 0) ≡ self.old.saved }
        ensures left { IsTrue result → self.old.early ≡ true → 1 ≤ self.new.saved }
        ensures spent { result ≡ false → (self.old.early ≡ true) × (self.new.saved ≡ 0) }
    {
        if !self.early {
            return true;
        }
        if self.saved < 2 {
            self.saved = 0;
            return false;
        }
        self.saved -= 1;
        true
    }

    /// Whether an early try can pay for a play.
    pub(crate) fn can_pay(&self) -> bool {
        self.early || self.saved > 1
    }

    /// Whether nothing is left.
    pub(crate) fn is_spent(&self) -> bool
        ensures { IsTrue result ↔ (self.now.saved ≡ 0) }
    {
        self.saved == 0
    }

    /// From now on each play is paid for. Returns whether this was so before.
    pub(crate) fn begin_early(&mut self) -> bool
        ensures before { result ≡ self.old.early }
        ensures begun { self.new ≡ record { saved = self.old.saved; early = true } }
    {
        let before = self.early;
        self.early = true;
        before
    }

    /// Restores the mode that `begin_early` returned.
    pub(crate) fn end_early(&mut self, before: bool)
        ensures { self.new ≡ record { saved = self.old.saved; early = before } }
    {
        self.early = before;
    }
}
