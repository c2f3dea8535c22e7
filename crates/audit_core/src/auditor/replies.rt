//! How the engine's replies are handled.
ghost use Rattle.std.specs.Prelude.{◌≡◌, ◌<◌, ◌≤◌, [], length, IfOk, IfSome, OnOk};
ghost use Rattle.hive_model.specs.Legal.{moves};
ghost use Rattle.hive_model.specs.Lists.{IsOn};
ghost use Rattle.io_edge.specs.Lines.{greatest_line};
ghost use Rattle.audit_core.specs.Judging.{wrong_list};
ghost use Rattle.audit_core.specs.AuditState.{
  position_now,
  drawn_now,
  fresh,
  count,
  advance,
  play_drawn,
  with_move,
  check_string,
  check_list,
  greet,
  reply_ends,
  keep,
  line_at,
  reply_with,
  is_greeting,
};

use super::Auditor;
use super::games::raised;
use crate::drawing::draw;
use crate::findings::{Fault, Finding};
use crate::listed_moves::wrong_list;
use crate::lists::legal_moves;
use crate::parts::named_in;
use crate::plan::Stage;
use crate::sieges::is_siege;
use crate::strings::wrong_string;
use crate::texts::text_with;
use hive_model::{Game, LineText, Move, MoveList};
use std::alloc::{AllocError, Global};

/// Takes a text, and leaves an empty one.
fn take_text(alloc: Global, text: &mut LineText) -> LineText
    ensures taken { result ≡ text.old }
    ensures left { text.new ≡ [] }
{
    std::mem::replace(text, LineText::new(alloc))
}

impl<G: Game + Drop> Auditor<G> {
    /// Takes the reply, and leaves an empty one that has not begun.
    pub(super) fn take_reply(&mut self) -> LineText
        ensures reply { result ≡ self.old.reply }
        ensures left { self.new ≡ fresh self.old }
        ensures short { length result ≤ greatest_line }
    {
        self.begun = false;
        take_text(self.alloc, &mut self.reply)
    }

    /// Checks the reply to what was asked, which must be the game string of the game.
    fn check_string(&mut self, asked: &[u8], reply: &[u8]) -> Result<(), AllocError>
        requires { length reply.now ≤ greatest_line }
        ensures { OnOk result (self.new ≡ check_string self.old asked.now reply.now) }
    {
        match wrong_string(self.alloc, &self.game, asked, reply)? {
            None => self.list_or_end(),
            Some(finding) => self.found(&finding),
        }
    }

    /// Checks the reply to the start of a game, which must be its game string.
    fn check_begun(&mut self, reply: &[u8]) -> Result<(), AllocError>
        requires short { length reply.now ≤ greatest_line }
        requires stage { self.old.stage ≡ Stage.Beginning }
        ensures { OnOk result (self.new
            ≡ check_string self.old (line_at self.old Stage.Beginning) reply.now) }
    {
        let asked = self.place_line()?;
        self.check_string(asked.items(), reply)
    }

    /// The legal moves.
    pub(super) fn list_legal(&mut self) -> Result<MoveList, AllocError>
        ensures listed { IfOk result (λ l. l ≡ moves (position_now self.new)) }
        ensures same { self.new ≡ self.old }
    {
        legal_moves(self.alloc, &mut self.game)
    }

    /// What is wrong with a reply as the list of the legal moves.
    pub(super) fn wrong_list(
        &self,
        legal: &[Move],
        reply: &[u8],
    ) -> Result<Option<Finding>, AllocError>
        requires legal { legal.now ≡ moves (position_now self.now) }
        requires short { length reply.now ≤ greatest_line }
        ensures { IfOk result (λ o. o
            ≡ wrong_list self.now.game_type (position_now self.now) reply.now) }
    {
        wrong_list(self.alloc, &self.game, legal, reply)
    }

    /// Counts a list that was right.
    pub(super) fn count(&mut self, legal: &[Move]) -> Result<(), AllocError>
        requires { legal.now ≡ moves (position_now self.old) }
        ensures { OnOk result (self.new ≡ count self.old) }
    {
        self.positions = raised(self.positions, 1)?;
        self.choices = raised(self.choices, legal.len() as u64)?;
        Ok(())
    }

    /// Draws one of the legal moves, if there is one.
    fn draw(&mut self, legal: &[Move]) -> Result<Option<Move>, AllocError>
        requires { legal.now ≡ moves (position_now self.old) }
        ensures drawn { IfOk result (λ o. o ≡ drawn_now self.old) }
        ensures state { OnOk result (self.new ≡ advance self.old) }
    {
        let siege = is_siege(self.plan.seed, self.games_before()?);
        draw(self.alloc, &self.game, siege, legal, &mut self.generator)
    }

    /// Sets the drawn move to be played.
    fn play_drawn(&mut self, drawn: Option<Move>) -> Result<(), AllocError>
        requires more { length self.old.moves < self.old.plan.plies }
        requires legal { IfSome drawn (λ m. IsOn (moves (position_now self.old)) m) }
        ensures { OnOk result (self.new ≡ play_drawn self.old drawn) }
    {
        match drawn {
            None => self.end_game(),
            Some(m) => {
                self.stage = Stage::Playing { m };
                self.sending = true;
                Ok(())
            }
        }
    }

    /// Counts a list that was right, and draws one of the legal moves, which is to be played.
    fn draw_from(&mut self, legal: &[Move]) -> Result<(), AllocError>
        requires legal { legal.now ≡ moves (position_now self.old) }
        requires more { length self.old.moves < self.old.plan.plies }
        ensures { OnOk result (self.new
            ≡ play_drawn (advance (count self.old)) (drawn_now self.old)) }
    {
        self.count(legal)?;
        let drawn = self.draw(legal)?;
        self.play_drawn(drawn)
    }

    /// Checks the reply, which must be the list of the legal moves.
    fn check_list(&mut self, reply: &[u8]) -> Result<(), AllocError>
        requires short { length reply.now ≤ greatest_line }
        requires more { length self.old.moves < self.old.plan.plies }
        ensures { OnOk result (self.new ≡ check_list self.old reply.now) }
    {
        let legal = self.list_legal()?;
        match self.wrong_list(legal.items(), reply)? {
            None => self.draw_from(legal.items()),
            Some(finding) => self.found(&finding),
        }
    }

    /// Plays the move that was drawn.
    fn play(&mut self, m: Move)
        requires { self.old.stage ≡ Stage.Playing m }
        ensures { self.new ≡ with_move self.old m }
    {
        self.game.play(m);
        self.stage = Stage::Beginning;
    }

    /// Plays the move, and checks the reply, which must be the game string.
    fn check_move(&mut self, m: Move, reply: &[u8]) -> Result<(), AllocError>
        requires short { length reply.now ≤ greatest_line }
        requires stage { self.old.stage ≡ Stage.Playing m }
        ensures { OnOk result (self.new
            ≡ check_string (with_move self.old m) (line_at self.old (Stage.Playing m)) reply.now) }
    {
        let asked = self.place_line()?;
        self.play(m);
        self.check_string(asked.items(), reply)
    }

    /// Reads the expansions that the engine plays from its greeting.
    fn greet(&mut self, reply: &[u8]) -> Result<(), AllocError>
        ensures { OnOk result (self.new ≡ greet self.old reply.now) }
    {
        self.plays = named_in(reply);
        self.next_game()
    }

    /// Handles the end of a reply.
    pub(super) fn reply_ends(&mut self, reply: &[u8]) -> Result<(), AllocError>
        requires { length reply.now ≤ greatest_line }
        ensures { OnOk result (self.new ≡ reply_ends self.old self.old.stage reply.now) }
    {
        match self.stage {
            Stage::Greeting => self.greet(reply),
            Stage::Beginning => self.check_begun(reply),
            Stage::Listing => self.check_list(reply),
            Stage::Playing { m } => self.check_move(m, reply),
            Stage::Undoing { plies } => self.check_undo(plies, reply),
            Stage::Reviewing => self.check_review(reply),
            Stage::Trying { m } => self.check_tried(m, reply),
            Stage::Relisting => self.check_relisted(reply),
            Stage::Loading => self.check_load(reply),
            Stage::Finishing => self.check_finish(reply),
            Stage::Over => Ok(()),
        }
    }

    /// Whether the greeting is being read.
    fn is_greeting(&self) -> bool
        ensures { result ≡ is_greeting self.now.stage }
    {
        match self.stage {
            Stage::Greeting => true,
            Stage::Beginning
            | Stage::Listing
            | Stage::Playing { m: _ }
            | Stage::Undoing { plies: _ }
            | Stage::Reviewing
            | Stage::Trying { m: _ }
            | Stage::Relisting
            | Stage::Loading
            | Stage::Finishing
            | Stage::Over => false,
        }
    }

    /// The reply with one more line. Of the greeting only the last line is kept.
    fn reply_with(&self, line: &[u8]) -> Result<LineText, AllocError>
        ensures { IfOk result (λ t. t ≡ reply_with self.now self.now.stage line.now) }
    {
        let joins = self.begun && !self.is_greeting();
        text_with(self.alloc, joins, self.reply.items(), line)
    }

    /// Keeps a line of a reply, unless the reply becomes too long.
    pub(super) fn keep(&mut self, line: &[u8]) -> Result<(), AllocError>
        ensures { OnOk result (self.new
            ≡ keep self.old (reply_with self.old self.old.stage line.now)) }
    {
        let reply = self.reply_with(line)?;
        if reply.items().len() > 65536 {
            return self.break_off(Fault::Unreadable);
        }
        self.begun = true;
        self.reply = reply;
        Ok(())
    }
}
