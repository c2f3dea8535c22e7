//! How each event changes a match.
ghost use Rattle.std.specs.Prelude.{◌≡◌, ◌+◌, ◌<◌, ◌≤◌, ◌^◌, length, OnOk, OnErr, List, ℕ};
ghost use Rattle.match_core.specs.MatchState.{
  happening,
  reply_ends,
  hear,
  go,
  keep,
  latest,
  at_send,
  at_read,
  at_before,
  at_after,
  answered,
};
ghost use Rattle.match_core.specs.Keeps.{IsLevel, IsEarly, HasNext, IsSettled};
ghost use Rattle.io_edge.specs.Lines.{greatest_line};

use super::Referee;
use crate::line_text::copy_line;
use crate::lines::{is_error, is_ok};
use crate::setup::Level;
use crate::stage::{Event, Stage, Task};
use crate::texts::write_ask;
use crate::verdict::Cause;
use hive_model::{Colour, Game, Move};
use std::alloc::AllocError;

/// The last moment at which the answer to a question asked at `asked` is in time.
fn latest(level: Level, asked: u64) -> u64
    requires level { IsLevel level }
    requires early { asked < 2 ^ 62 }
    ensures { result ≡ latest level asked }
{
    match level {
        Level::Depth { depth: _ } => asked,
        Level::Time { budget, margin } => asked + budget + margin,
    }
}

impl<G: Game + Drop> Referee<G> {
    /// Next a side is sent the line that begins the game.
    fn begin(&mut self, side: Colour)
        requires more { length self.old.moves ≤ length self.old.setup.begin + self.old.setup.limit }
        requires settled { IsSettled self.old.stage }
        ensures { self.new ≡ go self.old (Stage.Send Task.Begin side) }
    {
        self.first = None;
        self.count = 0;
        self.stage = Stage::Send {
            task: Task::Begin,
            side,
        };
    }

    /// Next the greeting of a side is read.
    fn greet(&mut self, side: Colour)
        requires { self.old.stage ≡ Stage.Read Task.Greet Colour.White }
        ensures { self.new ≡ go self.old (Stage.Read Task.Greet side) }
    {
        self.first = None;
        self.count = 0;
        self.stage = Stage::Read {
            task: Task::Greet,
            side,
        };
    }

    /// The reply of the side to move has ended.
    fn answered(&mut self)
        requires more { length self.old.moves < self.old.setup.limit }
        requires settled { IsSettled self.old.stage }
        ensures { self.new ≡ answered self.old self.old.setup.level }
    {
        match self.setup.level {
            Level::Depth { depth: _ } => self.judge(),
            Level::Time { .. } => {
                self.stage = Stage::After;
            }
        }
    }

    /// White has confirmed the move. Next black is sent it.
    fn tell_black(&mut self, m: Move)
        requires { self.old.stage ≡ Stage.Read (Task.Tell m) Colour.White }
        ensures { self.new ≡ go self.old (Stage.Send (Task.Tell m) Colour.Black) }
    {
        self.first = None;
        self.count = 0;
        self.stage = Stage::Send {
            task: Task::Tell { told: m },
            side: Colour::Black,
        };
    }

    /// A reply has ended. If memory runs out, the match is as before.
    fn reply_ends(&mut self, task: Task, side: Colour) -> Result<(), AllocError>
        requires more { HasNext task (length self.old.setup.begin) (length self.old.moves)
            self.old.setup.limit }
        requires stage { self.old.stage ≡ Stage.Read task side }
        ensures ok { OnOk result (self.new ≡ reply_ends self.old task side) }
        ensures err { OnErr result (self.new ≡ self.old) }
    {
        match (task, side) {
            (Task::Greet, Colour::White) => self.greet(Colour::Black),
            (Task::Greet, Colour::Black) => self.begin(Colour::White),
            (Task::Begin, Colour::White) => self.begin(Colour::Black),
            (Task::Begin, Colour::Black) => self.settle(),
            (Task::Ask, _) => self.answered(),
            (Task::Tell { told }, Colour::White) => self.tell_black(told),
            (Task::Tell { told: _ }, Colour::Black) => self.decide()?,
        }
        Ok(())
    }

    /// Counts a line, and keeps the first.
    fn keep(&mut self, line: &[u8]) -> Result<(), AllocError>
        requires few { self.old.count < 1000 }
        requires short { length line.now ≤ greatest_line }
        ensures ok { OnOk result (self.new ≡ keep self.old self.old.stage line.now) }
        ensures err { OnErr result (self.new ≡ self.old) }
    {
        if self.first.is_some() {
            self.count += 1;
            return Ok(());
        }
        let kept = copy_line(self.alloc, line)?;
        self.first = Some(kept);
        self.count += 1;
        Ok(())
    }

    /// A line of a reply: it ends the reply, reports an error, is one line too many, or is counted.
    fn hear(&mut self, task: Task, side: Colour, line: &[u8]) -> Result<(), AllocError>
        requires more { HasNext task (length self.old.setup.begin) (length self.old.moves)
            self.old.setup.limit }
        requires short { length line.now ≤ greatest_line }
        requires stage { self.old.stage ≡ Stage.Read task side }
        ensures ok { OnOk result (self.new ≡ hear self.old task side line.now) }
        ensures err { OnErr result (self.new ≡ self.old) }
    {
        if is_ok(line) {
            return self.reply_ends(task, side);
        }
        if is_error(line) {
            let line = copy_line(self.alloc, line)?;
            self.forfeit(side, Cause::ErrLine { line });
            return Ok(());
        }
        if self.count >= 1000 {
            self.forfeit(side, Cause::Flood { lines: 1001 });
            return Ok(());
        }
        self.keep(line)
    }

    /// The result of sending a line.
    pub(super) fn on_send(&mut self, task: Task, side: Colour, event: Event)
        requires { self.old.stage ≡ Stage.Send task side }
        ensures { (line : List ℕ) → self.new ≡ at_send self.old task side (happening event line) }
    {
        match event {
            Event::Sent => {
                self.first = None;
                self.count = 0;
                self.stage = Stage::Read { task, side };
            }
            Event::Broke => self.forfeit(side, Cause::Broke),
            _ => {}
        }
    }

    /// The result of reading a line.
    pub(super) fn on_read(
        &mut self,
        task: Task,
        side: Colour,
        event: Event,
        line: &[u8],
    ) -> Result<(), AllocError>
        requires more { HasNext task (length self.old.setup.begin) (length self.old.moves)
            self.old.setup.limit }
        requires short { length line.now ≤ greatest_line }
        requires stage { self.old.stage ≡ Stage.Read task side }
        ensures ok { OnOk result (self.new ≡ at_read self.old task side
            (happening event line.now)) }
        ensures err { OnErr result (self.new ≡ self.old) }
        ensures memory { OnErr result (event ≡ Event.Line) }
    {
        match event {
            Event::Line => self.hear(task, side, line),
            Event::TooLong => {
                self.forfeit(side, Cause::LongLine);
                Ok(())
            }
            Event::Ended => {
                self.forfeit(side, Cause::Ended);
                Ok(())
            }
            Event::Broke => {
                self.forfeit(side, Cause::Broke);
                Ok(())
            }
            _ => Ok(()),
        }
    }

    /// The reading of the clock before a question.
    pub(super) fn on_before(&mut self, event: Event)
        requires stage { self.old.stage ≡ Stage.Before }
        requires early { IsEarly event }
        ensures { (line : List ℕ) → self.new ≡ at_before self.old (happening event line) }
    {
        match event {
            Event::Reading { at } => {
                write_ask(&mut self.text, self.setup.level);
                self.asked = at;
                self.stage = Stage::Send {
                    task: Task::Ask,
                    side: self.game.side(),
                };
            }
            _ => {}
        }
    }

    /// The reading of the clock after a reply.
    pub(super) fn on_after(&mut self, event: Event)
        requires stage { self.old.stage ≡ Stage.After }
        requires early { IsEarly event }
        ensures { (line : List ℕ) → self.new ≡ at_after self.old (happening event line) }
    {
        match event {
            Event::Reading { at } => {
                let latest = latest(self.setup.level, self.asked);
                if at > latest {
                    let side = self.game.side();
                    let asked = self.asked;
                    self.forfeit(
                        side,
                        Cause::Late {
                            asked,
                            answered: at,
                        },
                    );
                } else {
                    self.judge();
                }
            }
            _ => {}
        }
    }
}
