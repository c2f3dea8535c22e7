//! How a match goes on after a whole reply.
ghost use Rattle.std.specs.Prelude.{◌≡◌, ◌<◌, ◌≤◌, length, None, unwrap_or, [], OnOk, OnErr};
ghost use Rattle.hive_model.specs.Legal.{moves};
ghost use Rattle.hive_model.specs.Lists.{IsOn};
ghost use Rattle.match_core.specs.MatchState.{
  ask,
  judge,
  decide,
  forfeit,
  finish,
  accept,
  position_now,
};
ghost use Rattle.match_core.specs.Keeps.{IsSettled, IsTelling};

use super::Referee;
use crate::setup::Level;
use crate::stage::{Stage, Task};
use crate::texts::{read_line, write_ask, write_tell};
use crate::verdict::{Cause, Verdict};
use hive_model::{Colour, Game, LineText, Move};
use std::alloc::{AllocError, Global};

/// Takes the first line, which is empty if there is none.
fn take_first(alloc: Global, first: &mut Option<LineText>) -> LineText
    ensures line { result ≡ unwrap_or first.old [] }
    ensures none { first.new ≡ None }
{
    match first.take() {
        Some(line) => line,
        None => LineText::new(alloc),
    }
}

impl<G: Game + Drop> Referee<G> {
    /// The match is over.
    pub(super) fn finish(&mut self, verdict: Verdict)
        ensures { self.new ≡ finish self.old verdict }
    {
        self.first = None;
        self.count = 0;
        self.stage = Stage::Finished;
        self.verdict = Some(verdict);
    }

    /// A side forfeits for this cause.
    pub(super) fn forfeit(&mut self, side: Colour, cause: Cause)
        ensures { self.new ≡ forfeit self.old side cause }
    {
        self.finish(Verdict::Forfeit { side, cause });
    }

    /// Asks the side to move. If it has a time, the clock is read first.
    #[tactic(auto, unfolding(crate::specs::MatchState::ask))]
    pub(super) fn ask(&mut self)
        requires more { length self.old.moves < self.old.setup.limit }
        requires settled { IsSettled self.old.stage }
        ensures { self.new ≡ ask self.old }
    {
        self.first = None;
        self.count = 0;
        match self.setup.level {
            Level::Depth { depth: _ } => {
                write_ask(&mut self.text, self.setup.level);
                self.stage = Stage::Send {
                    task: Task::Ask,
                    side: self.game.side(),
                };
            }
            Level::Time { .. } => {
                self.stage = Stage::Before;
            }
        }
    }

    /// Both sides know all moves, and the keys of their positions are kept. The rules end the game,
    /// or the limit does, or it goes on.
    #[tactic(auto, unfolding(crate::specs::MatchState::decide))]
    pub(super) fn settle(&mut self)
        requires { IsSettled self.old.stage }
        ensures { self.new ≡ decide self.old }
    {
        let state = self.seen.outcome(&self.game);
        if state.is_over() {
            self.finish(Verdict::Rules { state });
        } else if self.game.plies() >= self.setup.limit {
            self.finish(Verdict::Limit);
        } else {
            self.ask();
        }
    }

    /// Both sides know the last move. The key of its position is kept, and no move is being sent
    /// any longer. Then the match goes on as one that has just begun. If memory runs out, the match
    /// is as before.
    #[tactic(auto, unfolding(crate::specs::MatchState::decide, crate::specs::MatchState::ask))]
    pub(super) fn decide(&mut self) -> Result<(), AllocError>
        requires more { length self.old.moves ≤ self.old.setup.limit }
        requires told { IsTelling self.old.stage }
        ensures ok { OnOk result (self.new ≡ decide self.old) }
        ensures err { OnErr result (self.new ≡ self.old) }
    {
        self.seen.note(&self.game)?;
        self.stage = Stage::Read {
            task: Task::Begin,
            side: Colour::Black,
        };
        self.settle();
        Ok(())
    }

    /// Plays a legal move. It has to be sent to white first.
    fn accept(&mut self, m: Move)
        requires more { length self.old.moves < self.old.setup.limit }
        requires settled { IsSettled self.old.stage }
        requires legal { IsOn (moves (position_now self.old)) m }
        ensures { self.new ≡ accept self.old m }
    {
        write_tell(&mut self.text, &self.game, m.again());
        self.game.play(m.again());
        self.first = None;
        self.count = 0;
        self.stage = Stage::Send {
            task: Task::Tell { told: m },
            side: Colour::White,
        };
    }

    /// Judges the first line of the reply, which has to be a legal move.
    #[tactic(auto, unfolding(crate::specs::MatchState::judge))]
    pub(super) fn judge(&mut self)
        requires more { length self.old.moves < self.old.setup.limit }
        requires settled { IsSettled self.old.stage }
        ensures { self.new ≡ judge self.old }
    {
        let side = self.game.side();
        let line = take_first(self.alloc, &mut self.first);
        match read_line(&self.game, line.items()) {
            Err(_) => self.forfeit(side, Cause::NotAMove { line }),
            Ok(m) => {
                if self.game.is_legal(m.again()) {
                    self.accept(m);
                } else {
                    self.forfeit(side, Cause::Illegal { line });
                }
            }
        }
    }
}
