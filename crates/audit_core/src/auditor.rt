//! The auditor of an engine.
ghost use Rattle.std.specs.Prelude.{◌≡◌, ◌≤◌, [], length, IfOk, OnOk};
ghost use Rattle.io_edge.specs.Lines.{Text, TooLong, greatest_line};
ghost use Rattle.audit_core.specs.Keeps.{IsPlan};
ghost use Rattle.audit_core.specs.AuditState.{
  start,
  line_at,
  line_now,
  sent,
  at_mark,
  is_ended,
};

mod endings;
mod games;
mod replies;

use crate::drawing::generator_of;
use crate::findings::Fault;
use crate::plan::{AuditPlan, Stage};
use crate::texts::{begin_line, copy_text, is_ok, load_line, play_line, try_line, undo_line};
use hive_model::{Game, GameType, LineText, ReplyText};
use rand_xoshiro::SplitMix64;
use std::alloc::{AllocError, Global};
use std::marker::Model;

/// The base game, with no expansion.
const BASE: GameType = GameType {
    mosquito: false,
    ladybug: false,
    pillbug: false,
};

/// A new game of this type, with room for this number of plies.
fn new_game<G: Game + Drop>(alloc: Global, game_type: GameType, plies: u32) -> Result<G, AllocError>
    requires { plies ≤ 1000 }
    ensures kind { IfOk result (λ g. (G.history g).game_type ≡ game_type) }
    ensures empty { IfOk result (λ g. (G.history g).made ≡ []) }
    ensures room { IfOk result (λ g. plies ≤ (G.history g).spare) }
{
    let mut game = G::opening(alloc, game_type)?;
    game.reserve(plies)?;
    Ok(game)
}

/// An audit in progress: its state after the lines that its engine has said.
///
/// The greeting is read, and then game after game is played. A new game is asked for. Before each
/// ply its legal moves are asked for, and then one of them, which is drawn, is played.
///
/// Once the game has come to its end, some of its plies are taken back. Their number is drawn. The
/// legal moves there are asked for. Then a drawn move is tried that was legal two plies before and
/// is not now, if there is one. The list is asked for again. At last the whole game is loaded by
/// its game string, and its legal moves are asked for unless it is over.
///
/// Each reply ends with a line `ok`, and is judged. A fault ends its game, and is reported in a
/// line.
///
/// After memory ran out an auditor is of no further use. A count that would reach 2^64 is reported
/// as running out of memory.
#[derive(Drop)]
pub struct Auditor<G: Game> {
    alloc: Global,
    plan: AuditPlan,
    stage: Stage,
    sending: bool,
    ended: u64,
    plays: GameType,
    game: G,
    whole: G,
    generator: SplitMix64,
    begun: bool,
    reply: LineText,
    text: ReplyText,
    findings: u64,
    positions: u64,
    choices: u64,
}

impl<G: Game> Model for Auditor<G> {
    ghost use Rattle.audit_core.specs.AuditState.{AuditState, audit_state};
    ghost use Rattle.audit_core.specs.Keeps.{IsAuditor};

    ghost Value = { AuditState };

    ghost view = { λ a. audit_state a.plan a.stage a.sending a.ended a.plays
        (G.history a.game).game_type (G.history a.game).made (G.history a.whole).made a.generator
        a.begun a.reply a.text a.findings a.positions a.choices };

    ghost invariant = { λ a. IsAuditor a.plan a.stage (G.history a.game) (G.history a.whole)
        a.reply };
}

impl<G: Game + Drop> Auditor<G> {
    /// The auditor of an audit that begins.
    ///
    /// # Errors
    ///
    /// Memory runs out.
    pub fn new(alloc: Global, plan: AuditPlan) -> Result<Auditor<G>, AllocError>
        requires { IsPlan plan }
        ensures { IfOk result (λ a. a ≡ start plan) }
    {
        let game = new_game(alloc, BASE, plan.plies)?;
        let whole = new_game(alloc, BASE, plan.plies)?;
        Ok(Auditor {
            alloc,
            plan,
            stage: Stage::Greeting,
            sending: false,
            ended: 0,
            plays: BASE,
            game,
            whole,
            generator: generator_of(plan.seed, 0),
            begun: false,
            reply: LineText::new(alloc),
            text: ReplyText::new(alloc),
            findings: 0,
            positions: 0,
            choices: 0,
        })
    }

    /// Whether the audit is over. Then there is no line to send, and none to read.
    pub fn is_over(&self) -> bool
        ensures { result ≡ is_ended self.now.stage }
    {
        match self.stage {
            Stage::Over => true,
            _ => false,
        }
    }

    /// The text to be written so far.
    pub fn text(&self) -> &[u8]
        ensures { result.now ≡ self.now.text }
    {
        self.text.items()
    }

    /// The number of findings.
    pub fn findings(&self) -> u64
        ensures { result ≡ self.now.findings }
    {
        self.findings
    }

    /// The line to be sent at the stage that the audit has reached.
    fn place_line(&self) -> Result<ReplyText, AllocError>
        ensures { IfOk result (λ t. t ≡ line_at self.now self.now.stage) }
    {
        match self.stage {
            Stage::Greeting => Ok(ReplyText::new(self.alloc)),
            Stage::Beginning => begin_line(self.alloc, self.game.game_type()),
            Stage::Listing => copy_text(self.alloc, b"validmoves\n"),
            Stage::Playing { m } => play_line(self.alloc, &self.game, m),
            Stage::Undoing { plies } => undo_line(self.alloc, plies),
            Stage::Reviewing => copy_text(self.alloc, b"validmoves\n"),
            Stage::Trying { m } => try_line(self.alloc, &self.game, m),
            Stage::Relisting => copy_text(self.alloc, b"validmoves\n"),
            Stage::Loading => load_line(self.alloc, &self.whole),
            Stage::Finishing => copy_text(self.alloc, b"validmoves\n"),
            Stage::Over => Ok(ReplyText::new(self.alloc)),
        }
    }

    /// The line to be sent before the next one is read, its LF included. It is empty if there is
    /// none.
    ///
    /// # Errors
    ///
    /// Memory runs out.
    pub fn line(&self) -> Result<ReplyText, AllocError>
        ensures { IfOk result (λ t. t ≡ line_now self.now) }
    {
        if self.sending {
            self.place_line()
        } else {
            Ok(ReplyText::new(self.alloc))
        }
    }

    /// Notes that the line was sent.
    pub fn sent(&mut self)
        ensures { self.new ≡ sent self.old }
    {
        self.sending = false;
    }

    /// Advances by a line of the engine, of at most 65,536 bytes, while the audit is not over.
    ///
    /// # Errors
    ///
    /// Memory runs out.
    #[tactic(auto, unfolding(crate::specs::AuditState::at_mark))]
    pub fn hear(&mut self, line: &[u8]) -> Result<(), AllocError>
        requires { length line.now ≤ greatest_line }
        ensures { OnOk result (self.new ≡ at_mark self.old (Text line.now)) }
    {
        if is_ok(line) {
            let reply = self.take_reply();
            return self.reply_ends(reply.items());
        }
        self.keep(line)
    }

    /// Advances by a line of the engine that is too long.
    ///
    /// # Errors
    ///
    /// Memory runs out.
    #[tactic(auto, unfolding(crate::specs::AuditState::at_mark))]
    pub fn pass_over(&mut self) -> Result<(), AllocError>
        ensures { OnOk result (self.new ≡ at_mark self.old TooLong) }
    {
        self.break_off(Fault::Unreadable)
    }
}
