//! How the replies at the end of a game are handled.
ghost use Rattle.std.specs.Prelude.{◌≡◌, ◌≤◌, length, IfOk, IfSome, OnOk};
ghost use Rattle.hive_model.specs.Legal.{moves};
ghost use Rattle.io_edge.specs.Lines.{greatest_line};
ghost use Rattle.move_text.specs.Moves.{IsMoveWithin};
ghost use Rattle.audit_core.specs.Drawing.{tried_of};
ghost use Rattle.audit_core.specs.AuditState.{
  position_before,
  position_now,
  go,
  next_game,
  end_game,
  count,
  next_word,
  try_drawn,
  without_plies,
  check_undone,
  check_review,
  check_tried,
  check_relisted,
  loaded,
  list_loaded,
  check_loaded,
  check_finish,
  line_at,
};

use super::Auditor;
use crate::drawing::draw_tried;
use crate::findings::{Fault, Finding};
use crate::past::first_plies;
use crate::plan::Stage;
use crate::strings::wrong_string;
use crate::texts::{is_refusal, near_text};
use hive_model::{Game, Move};
use std::alloc::AllocError;

impl<G: Game + Drop> Auditor<G> {
    /// Takes this number of plies back.
    fn take_back(&mut self, plies: u32) -> Result<(), AllocError>
        requires { self.old.stage ≡ Stage.Undoing plies }
        ensures { OnOk result (self.new ≡ without_plies self.old plies) }
    {
        let left = self.game.plies() - plies;
        let past = first_plies(self.alloc, &self.game, left, self.plan.plies)?;
        self.whole = std::mem::replace(&mut self.game, past);
        self.stage = Stage::Beginning;
        Ok(())
    }

    /// Checks the reply to an undo, which must be the game string. Then the list is asked for.
    fn check_undone(&mut self, asked: &[u8], reply: &[u8]) -> Result<(), AllocError>
        requires { length reply.now ≤ greatest_line }
        ensures { OnOk result (self.new ≡ check_undone self.old asked.now reply.now) }
    {
        match wrong_string(self.alloc, &self.game, asked, reply)? {
            None => {
                self.stage = Stage::Reviewing;
                self.sending = true;
                Ok(())
            }
            Some(finding) => self.found(&finding),
        }
    }

    /// Takes the plies back, and checks the reply, which must be the game string.
    pub(super) fn check_undo(&mut self, plies: u32, reply: &[u8]) -> Result<(), AllocError>
        requires short { length reply.now ≤ greatest_line }
        requires stage { self.old.stage ≡ Stage.Undoing plies }
        ensures { OnOk result (self.new ≡ check_undone (without_plies self.old plies)
            (line_at self.old (Stage.Undoing plies)) reply.now) }
    {
        let asked = self.place_line()?;
        self.take_back(plies)?;
        self.check_undone(asked.items(), reply)
    }

    /// Draws one of the moves that were legal two plies before and are not now, if there is one.
    fn draw_tried(&mut self, legal: &[Move]) -> Result<Option<Move>, AllocError>
        requires { legal.now ≡ moves (position_now self.old) }
        ensures drawn { IfOk result (λ o. o
            ≡ tried_of self.old.state (position_before self.old) (position_now self.old)) }
        ensures near { IfOk result (λ o. IfSome o (λ m. IsMoveWithin m)) }
        ensures state { OnOk result (self.new ≡ next_word self.old) }
    {
        draw_tried(self.alloc, &self.game, legal, &mut self.generator)
    }

    /// Sets the drawn move to be tried. If there is none, the whole game is loaded.
    fn try_drawn(&mut self, drawn: Option<Move>)
        requires { IfSome drawn (λ m. IsMoveWithin m) }
        ensures { self.new ≡ try_drawn self.old drawn }
    {
        self.stage = match drawn {
            None => Stage::Loading,
            Some(m) => Stage::Trying { m },
        };
        self.sending = true;
    }

    /// Counts a list that was right, and draws a move to be tried.
    fn try_from(&mut self, legal: &[Move]) -> Result<(), AllocError>
        requires { legal.now ≡ moves (position_now self.old) }
        ensures { OnOk result (self.new ≡ try_drawn (next_word (count self.old))
            (tried_of self.old.state (position_before self.old) (position_now self.old))) }
    {
        self.count(legal)?;
        let drawn = self.draw_tried(legal)?;
        self.try_drawn(drawn);
        Ok(())
    }

    /// Checks the reply after an undo, which must be the list of the legal moves.
    pub(super) fn check_review(&mut self, reply: &[u8]) -> Result<(), AllocError>
        requires { length reply.now ≤ greatest_line }
        ensures { OnOk result (self.new ≡ check_review self.old reply.now) }
    {
        let legal = self.list_legal()?;
        match self.wrong_list(legal.items(), reply)? {
            None => self.try_from(legal.items()),
            Some(finding) => self.found(&finding),
        }
    }

    /// Asks for the list again.
    fn relist(&mut self)
        ensures { self.new ≡ go self.old Stage.Relisting }
    {
        self.stage = Stage::Relisting;
        self.sending = true;
    }

    /// Checks the reply to a move that is not legal, which must be a refusal.
    pub(super) fn check_tried(&mut self, m: Move, reply: &[u8]) -> Result<(), AllocError>
        requires { self.old.stage ≡ Stage.Trying m }
        ensures { OnOk result (self.new ≡ check_tried self.old m reply.now) }
    {
        if is_refusal(reply) {
            self.relist();
            return Ok(());
        }
        let text = near_text(self.alloc, &self.game, m)?;
        let fault = Fault::Accepted;
        self.found(&Finding { fault, text })
    }

    /// Counts a list that was right, and sets the whole game to be loaded.
    fn load_from(&mut self, legal: &[Move]) -> Result<(), AllocError>
        requires { legal.now ≡ moves (position_now self.old) }
        ensures { OnOk result (self.new ≡ go (count self.old) Stage.Loading) }
    {
        self.count(legal)?;
        self.stage = Stage::Loading;
        self.sending = true;
        Ok(())
    }

    /// Checks the reply, which must be the list as before.
    pub(super) fn check_relisted(&mut self, reply: &[u8]) -> Result<(), AllocError>
        requires { length reply.now ≤ greatest_line }
        ensures { OnOk result (self.new ≡ check_relisted self.old reply.now) }
    {
        let legal = self.list_legal()?;
        match self.wrong_list(legal.items(), reply)? {
            None => self.load_from(legal.items()),
            Some(finding) => self.found(&finding),
        }
    }

    /// Restores the whole game.
    fn restore(&mut self)
        ensures { self.new ≡ loaded self.old }
    {
        std::mem::swap(&mut self.game, &mut self.whole);
        self.stage = Stage::Beginning;
    }

    /// Asks for the list if the game goes on. Otherwise the game has ended.
    fn list_loaded(&mut self) -> Result<(), AllocError>
        ensures { OnOk result (self.new ≡ list_loaded self.old) }
    {
        if self.game.state().is_over() {
            return self.end_game();
        }
        self.stage = Stage::Finishing;
        self.sending = true;
        Ok(())
    }

    /// Checks the reply, which must be the game string of the whole game.
    fn check_loaded(&mut self, asked: &[u8], reply: &[u8]) -> Result<(), AllocError>
        requires { length reply.now ≤ greatest_line }
        ensures { OnOk result (self.new ≡ check_loaded self.old asked.now reply.now) }
    {
        match wrong_string(self.alloc, &self.game, asked, reply)? {
            None => self.list_loaded(),
            Some(finding) => self.found(&finding),
        }
    }

    /// Restores the whole game, and checks the reply, which must be its game string.
    pub(super) fn check_load(&mut self, reply: &[u8]) -> Result<(), AllocError>
        requires short { length reply.now ≤ greatest_line }
        requires stage { self.old.stage ≡ Stage.Loading }
        ensures { OnOk result (self.new
            ≡ check_loaded (loaded self.old) (line_at self.old Stage.Loading) reply.now) }
    {
        let asked = self.place_line()?;
        self.restore();
        self.check_loaded(asked.items(), reply)
    }

    /// Counts a list that was right, and ends the game.
    fn end_listed(&mut self, legal: &[Move]) -> Result<(), AllocError>
        requires { legal.now ≡ moves (position_now self.old) }
        ensures { OnOk result (self.new ≡ next_game (end_game (count self.old))) }
    {
        self.count(legal)?;
        self.end_game()
    }

    /// Checks the reply, which must be the list of the legal moves of the whole game.
    pub(super) fn check_finish(&mut self, reply: &[u8]) -> Result<(), AllocError>
        requires { length reply.now ≤ greatest_line }
        ensures { OnOk result (self.new ≡ check_finish self.old reply.now) }
    {
        let legal = self.list_legal()?;
        match self.wrong_list(legal.items(), reply)? {
            None => self.end_listed(legal.items()),
            Some(finding) => self.found(&finding),
        }
    }
}
