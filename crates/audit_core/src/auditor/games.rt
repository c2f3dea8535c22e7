//! The games of an audit: how each begins and ends.
ghost use Rattle.std.specs.Prelude.{◌≡◌, ◌+◌, IfOk, OnOk};
ghost use Rattle.audit_core.specs.AuditState.{
  conclude,
  begin,
  next_game,
  end_game,
  games_before,
  note,
  found,
  break_off,
  close_game,
  list_or_end,
};

use super::{Auditor, new_game};
use crate::drawing::{draw_undone, generator_of, type_of};
use crate::findings::{Fault, Finding};
use crate::plan::Stage;
use crate::texts::{asked_text, write_finding, write_last};
use hive_model::Game;
use std::alloc::AllocError;

/// A count increased by this number.
pub(super) fn raised(count: u64, more: u64) -> Result<u64, AllocError>
    ensures { IfOk result (λ n. n ≡ count + more) }
{
    match count.checked_add(more) {
        Some(sum) => Ok(sum),
        None => Err(AllocError),
    }
}

impl<G: Game + Drop> Auditor<G> {
    /// How many games of the seed come before the current game.
    pub(super) fn games_before(&self) -> Result<u64, AllocError>
        ensures { IfOk result (λ n. n ≡ games_before self.now) }
    {
        raised(self.plan.first - 1, self.ended)
    }

    /// Ends the audit, and writes its last line.
    fn conclude(&mut self) -> Result<(), AllocError>
        ensures { OnOk result (self.new ≡ conclude self.old) }
    {
        self.stage = Stage::Over;
        self.sending = false;
        write_last(
            &mut self.text,
            self.ended,
            self.positions,
            self.choices,
            self.findings,
        )
    }

    /// Begins the next game.
    fn begin(&mut self) -> Result<(), AllocError>
        ensures { OnOk result (self.new ≡ begin self.old) }
    {
        let before = self.games_before()?;
        let game_type = type_of(self.plan.game_type, self.plays, before);
        let game = new_game(self.alloc, game_type, self.plan.plies)?;
        let whole = new_game(self.alloc, game_type, self.plan.plies)?;
        self.game = game;
        self.whole = whole;
        self.generator = generator_of(self.plan.seed, before);
        self.stage = Stage::Beginning;
        self.sending = true;
        Ok(())
    }

    /// Begins the next game if there is one. Otherwise the audit is over.
    pub(super) fn next_game(&mut self) -> Result<(), AllocError>
        ensures { OnOk result (self.new ≡ next_game self.old) }
    {
        if self.plan.games <= self.ended {
            self.conclude()
        } else {
            self.begin()
        }
    }

    /// Ends a game, and begins the next one.
    pub(super) fn end_game(&mut self) -> Result<(), AllocError>
        ensures { OnOk result (self.new ≡ next_game (end_game self.old)) }
    {
        self.ended = raised(self.ended, 1)?;
        self.next_game()
    }

    /// Counts a finding, and writes its line.
    fn note(&mut self, finding: &Finding) -> Result<(), AllocError>
        ensures { OnOk result (self.new ≡ note self.old finding.now) }
    {
        let number = raised(self.games_before()?, 1)?;
        self.findings = raised(self.findings, 1)?;
        write_finding(self.alloc, &mut self.text, number, &self.game, finding)
    }

    /// Ends a game, and the audit with it.
    fn end_audit(&mut self) -> Result<(), AllocError>
        ensures { OnOk result (self.new ≡ conclude (end_game self.old)) }
    {
        self.ended = raised(self.ended, 1)?;
        self.conclude()
    }

    /// Notes a finding. It ends its game. It also ends the audit if there are as many findings now
    /// as end it.
    pub(super) fn found(&mut self, finding: &Finding) -> Result<(), AllocError>
        ensures { OnOk result (self.new ≡ found self.old finding.now) }
    {
        self.note(finding)?;
        if self.plan.most <= self.findings {
            self.end_audit()
        } else {
            self.end_game()
        }
    }

    /// Ends the audit because a reply is missing. The finding names the line that was to be
    /// answered, if there is one.
    ///
    /// # Errors
    ///
    /// Memory runs out.
    pub fn break_off(&mut self, fault: Fault) -> Result<(), AllocError>
        ensures { OnOk result (self.new ≡ break_off self.old fault) }
    {
        let line = self.place_line()?;
        let text = asked_text(self.alloc, line.items())?;
        let finding = Finding { fault, text };
        self.note(&finding)?;
        self.end_audit()
    }

    /// Begins to take back some plies at the end of a game, if it has any.
    fn close_game(&mut self) -> Result<(), AllocError>
        ensures { OnOk result (self.new ≡ close_game self.old) }
    {
        let plies = self.game.plies();
        if plies == 0 {
            return self.end_game();
        }
        let back = draw_undone(&mut self.generator, plies);
        self.stage = Stage::Undoing { plies: back };
        self.sending = true;
        Ok(())
    }

    /// Asks for the list of legal moves, if the game is not over and may have more plies.
    pub(super) fn list_or_end(&mut self) -> Result<(), AllocError>
        ensures { OnOk result (self.new ≡ list_or_end self.old) }
    {
        if self.game.state().is_over() || self.plan.plies <= self.game.plies() {
            return self.close_game();
        }
        self.stage = Stage::Listing;
        self.sending = true;
        Ok(())
    }
}
