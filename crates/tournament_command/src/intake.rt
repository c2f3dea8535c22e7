//! What was read of the input, line by line.
ghost use Rattle.std.specs.Prelude.{
  ◌≡◌,
  ◌+◌,
  ◌≤◌,
  ◌<◌,
  ◌^◌,
  ℕ,
  length,
  Ok,
  Some,
  IfErr,
  MatchOption,
  OnOk,
};
ghost use Rattle.io_edge.specs.Lines.{Text, TooLong as LongLine, greatest_line};
ghost use Rattle.tournament_core.specs.Schedules.{schedule};
ghost use Rattle.tournament_command.specs.declared.format.Format.{Format as AnyFormat};
ghost use Rattle.tournament_command.specs.Formats.{IsFormat, plan_of};
ghost use Rattle.tournament_command.specs.Intakes.{
  before,
  next_fixture,
  nothing_read,
  take_game,
  take_head,
  take_line,
  take_opening,
  take_told,
  take_verdict,
  with_end,
  with_head,
  with_opening,
};
ghost use Rattle.tournament_command.specs.Taking.{AreEngines, IsIntake, Refuses};
ghost use Rattle.tournament_command.specs.declared.phase.Phase.TheVariants.{Openings};

use crate::format::{Format, plan_of};
use crate::heads::{HeadMatch, head_after, head_match};
use crate::lines::{ended_in, is_empty, is_game_line, is_head_line, opening_in};
use crate::phase::Phase;
use crate::refused::{LineFault, Refused};
use cup::Program;
use hive_model::{Game, MoveList};
use std::alloc::{AllocError, Global};
use std::marker::Model;
use tournament_core::{Fixture, GameEnd};
use tournament_record::HeadParts;

/// The most openings of a tournament.
const MOST_OPENINGS: usize = 100_000;

/// What was read of the input: how many lines; the moves of each opening, and behind them the head
/// of their tournament; how the games that are told ended, in their order; and what the next line
/// is to be.
#[derive(Drop)]
pub(crate) struct Intake {
    lines: u64,
    phase: Phase,
    head: HeadParts,
    openings: Vec<MoveList>,
    ends: Vec<GameEnd>,
}

impl Model for Intake {
    ghost use Rattle.tournament_command.specs.Intakes.{Intake as AnyIntake};

    ghost Value = { AnyIntake };

    ghost view = { λ i. record {
      lines = i.lines;
      phase = i.phase;
      head = i.head;
      openings = i.openings.items;
      ends = i.ends.items;
    } };
}

impl Intake {
    /// Nothing was read.
    pub(crate) fn new(alloc: Global) -> Intake
        ensures { result ≡ nothing_read }
    {
        Intake {
            lines: 0,
            phase: Phase::Openings,
            head: HeadParts::new(alloc),
            openings: Vec::new(alloc),
            ends: Vec::new(alloc),
        }
    }

    /// The openings that were read, and how the games that are told ended.
    pub(crate) fn parts(self) -> (Vec<MoveList>, Vec<GameEnd>)
        ensures openings { result.0.items ≡ self.openings }
        ensures ends { result.1.items ≡ self.ends }
    {
        (self.openings, self.ends)
    }

    /// A further line was read, and this is what the next one is to be.
    fn pass(&mut self, phase: Phase)
        requires { self.old.lines < 2 ^ 63 }
        ensures { self.new ≡ before phase self.old }
    {
        self.lines += 1;
        self.phase = phase;
    }

    /// The next line is not what it is to be.
    fn bad_next(&self) -> Refused
        requires { self.now.lines < 2 ^ 63 }
        ensures { result ≡ Refused.Line (LineFault.Bad (self.now.lines + 1)) }
    {
        Refused::Line(LineFault::Bad {
            number: self.lines + 1,
        })
    }

    /// The last line is not what it is to be.
    fn bad_last(&self) -> Refused
        ensures { result ≡ Refused.Line (LineFault.Bad self.now.lines) }
    {
        Refused::Line(LineFault::Bad { number: self.lines })
    }

    /// The game that comes behind those that were told.
    fn next_fixture(&self, engines: u32, format: Format) -> Option<Fixture>
        requires engines { AreEngines engines }
        requires format { IsFormat format }
        requires valid { IsIntake engines format self.now }
        ensures value { result ≡ next_fixture engines format self.now }
        ensures within { MatchOption result (Unit {0})
            (λ _. length self.now.ends < length (schedule
            (plan_of format engines self.now.openings))) }
        ensures few { length self.now.ends < 2 ^ 42 }
    {
        let plan = plan_of(engines, format, self.openings.as_slice());
        let games = plan.games();
        let told = self.ends.len() as u64;
        if told < games {
            Some(plan.fixture(told))
        } else {
            None
        }
    }

    /// Takes the moves of an opening.
    fn add_opening(&mut self, moves: MoveList) -> Result<(), AllocError>
        requires { self.old.lines < 2 ^ 63 }
        ensures { OnOk result (with_opening self.old (Some moves) ≡ Ok self.new) }
    {
        self.openings.push(moves)?;
        self.lines += 1;
        self.phase = Phase::Openings;
        Ok(())
    }

    /// The openings have ended, and this is the head of their tournament.
    fn close_openings(&mut self, head: HeadParts)
        requires { self.old.lines < 2 ^ 63 }
        ensures { self.new ≡ with_head head self.old }
    {
        self.head = head;
        self.pass(Phase::Head);
    }

    /// Takes a line that is to be an opening.
    fn take_opening<G: Game + Drop>(
        &mut self,
        alloc: Global,
        programs: &[Program],
        format: Format,
        text: &[u8],
    ) -> Result<(), Refused>
        requires room { self.old.lines < 2 ^ 63 }
        requires short { length text.now ≤ greatest_line }
        requires engines { AreEngines (length programs.now) }
        requires format { IsFormat format }
        requires valid { IsIntake (length programs.now) format self.old }
        ensures took { OnOk result
            (take_opening programs.now format self.old (Text text.now) ≡ Ok self.new) }
        ensures refused { IfErr result (λ why.
            Refuses why (take_opening programs.now format self.old (Text text.now))) }
        ensures kept { OnOk result ((engines : ℕ) → IsIntake engines format self.old
            → self.old.phase ≡ Openings → IsIntake engines format self.new) }
    {
        if format.resume && is_empty(text) {
            let head = head_after::<G>(alloc, programs, format, self.openings.as_slice())?;
            self.close_openings(head);
            return Ok(());
        }
        if self.openings.len() >= MOST_OPENINGS {
            return Err(self.bad_next());
        }
        match opening_in::<G>(alloc, format.setup.game_type, text)? {
            Some(moves) => {
                self.add_opening(moves)?;
                Ok(())
            }
            None => Err(self.bad_next()),
        }
    }

    /// Takes a line that is to tell the next game.
    fn take_game(
        &mut self,
        alloc: Global,
        engines: u32,
        format: Format,
        text: &[u8],
    ) -> Result<(), AllocError>
        requires room { self.old.lines < 2 ^ 63 }
        requires engines { AreEngines engines }
        requires format { IsFormat format }
        requires valid { IsIntake engines format self.old }
        ensures took { OnOk result (take_game self.old (Text text.now)
            (next_fixture engines format self.old) ≡ self.new) }
        ensures valid { OnOk result (IsIntake engines format self.new) }
    {
        let Some(fixture) = self.next_fixture(engines, format) else {
            self.pass(Phase::Game);
            return Ok(());
        };
        let number = self.ends.len() as u64 + 1;
        if is_game_line(alloc, number, fixture, text)? {
            self.pass(Phase::Verdict);
        } else {
            self.pass(Phase::Spoiled);
        }
        Ok(())
    }

    /// Takes a line that is to be the head.
    fn take_head(&mut self, alloc: Global, text: &[u8]) -> Result<(), Refused>
        requires room { self.old.lines < 2 ^ 63 }
        ensures took { OnOk result (take_head self.old (Text text.now) ≡ Ok self.new) }
        ensures refused { IfErr result (λ why. Refuses why (take_head self.old (Text text.now))) }
        ensures kept { OnOk result ((engines : ℕ) → (format : AnyFormat)
            → IsIntake engines format self.old → IsIntake engines format self.new) }
    {
        match head_match(alloc, self.head.items(), text)? {
            HeadMatch::Same => {
                self.pass(Phase::Game);
                Ok(())
            }
            HeadMatch::Cut => {
                self.pass(Phase::Spoiled);
                Ok(())
            }
            HeadMatch::Other { topic } => Err(Refused::Line(LineFault::Other {
                number: self.lines + 1,
                topic,
            })),
        }
    }

    /// The next game ended so.
    fn add_end(&mut self, ended: GameEnd) -> Result<(), AllocError>
        requires { self.old.lines < 2 ^ 63 }
        ensures { OnOk result (with_end self.old (Some ended) ≡ self.new) }
    {
        self.ends.push(ended)?;
        self.lines += 1;
        self.phase = Phase::Game;
        Ok(())
    }

    /// Takes a line that is to tell the verdict of the next game.
    fn take_verdict(
        &mut self,
        alloc: Global,
        engines: u32,
        format: Format,
        text: &[u8],
    ) -> Result<(), AllocError>
        requires room { self.old.lines < 2 ^ 63 }
        requires engines { AreEngines engines }
        requires format { IsFormat format }
        requires valid { IsIntake engines format self.old }
        ensures took { OnOk result (take_verdict self.old (Text text.now)
            (next_fixture engines format self.old) ≡ self.new) }
        ensures valid { OnOk result (IsIntake engines format self.new) }
    {
        let Some(fixture) = self.next_fixture(engines, format) else {
            self.pass(Phase::Spoiled);
            return Ok(());
        };
        let number = self.ends.len() as u64 + 1;
        match ended_in(alloc, number, fixture, text)? {
            Some(ended) => self.add_end(ended),
            None => {
                self.pass(Phase::Spoiled);
                Ok(())
            }
        }
    }

    /// Takes a line that is to tell the next game, or is the head once more.
    fn take_told(
        &mut self,
        alloc: Global,
        engines: u32,
        format: Format,
        text: &[u8],
    ) -> Result<(), Refused>
        requires room { self.old.lines < 2 ^ 63 }
        requires engines { AreEngines engines }
        requires format { IsFormat format }
        requires valid { IsIntake engines format self.old }
        ensures took { OnOk result (take_told self.old (Text text.now)
            (next_fixture engines format self.old) ≡ Ok self.new) }
        ensures refused { IfErr result (λ why. Refuses why (take_told self.old (Text text.now)
            (next_fixture engines format self.old))) }
        ensures valid { OnOk result (IsIntake engines format self.new) }
    {
        if is_head_line(text) {
            return self.take_head(alloc, text);
        }
        self.take_game(alloc, engines, format, text)?;
        Ok(())
    }

    /// Takes a further line.
    pub(crate) fn take<G: Game + Drop>(
        &mut self,
        alloc: Global,
        programs: &[Program],
        format: Format,
        text: &[u8],
    ) -> Result<(), Refused>
        requires room { self.old.lines < 2 ^ 63 }
        requires short { length text.now ≤ greatest_line }
        requires engines { AreEngines (length programs.now) }
        requires format { IsFormat format }
        requires valid { IsIntake (length programs.now) format self.old }
        ensures took { OnOk result
            (take_line programs.now format self.old (Text text.now) ≡ Ok self.new) }
        ensures refused { IfErr result (λ why.
            Refuses why (take_line programs.now format self.old (Text text.now))) }
        ensures valid { OnOk result (IsIntake (length programs.now) format self.new) }
    {
        let engines = programs.len() as u32;
        match self.phase {
            Phase::Openings => self.take_opening::<G>(alloc, programs, format, text),
            Phase::Head => self.take_head(alloc, text),
            Phase::Game => self.take_told(alloc, engines, format, text),
            Phase::Verdict => {
                self.take_verdict(alloc, engines, format, text)?;
                Ok(())
            }
            Phase::Spoiled => Err(self.bad_last()),
        }
    }

    /// Takes a line that is too long where it is to tell the next game.
    fn take_long_game(&mut self, engines: u32, format: Format)
        requires room { self.old.lines < 2 ^ 63 }
        requires engines { AreEngines engines }
        requires format { IsFormat format }
        requires valid { IsIntake engines format self.old }
        ensures took { take_game self.old LongLine (next_fixture engines format self.old)
            ≡ self.new }
        ensures valid { IsIntake engines format self.new }
    {
        match self.next_fixture(engines, format) {
            None => self.pass(Phase::Game),
            Some(_) => self.pass(Phase::Spoiled),
        }
    }

    /// Takes a further line that is too long.
    pub(crate) fn take_long(&mut self, programs: &[Program], format: Format) -> Result<(), Refused>
        requires room { self.old.lines < 2 ^ 63 }
        requires engines { AreEngines (length programs.now) }
        requires format { IsFormat format }
        requires valid { IsIntake (length programs.now) format self.old }
        ensures took { OnOk result (take_line programs.now format self.old LongLine ≡ Ok self.new) }
        ensures refused { IfErr result (λ why.
            Refuses why (take_line programs.now format self.old LongLine)) }
        ensures valid { OnOk result (IsIntake (length programs.now) format self.new) }
    {
        match self.phase {
            Phase::Openings => Err(self.bad_next()),
            Phase::Head => Err(self.bad_next()),
            Phase::Game => {
                self.take_long_game(programs.len() as u32, format);
                Ok(())
            }
            Phase::Verdict => {
                self.pass(Phase::Spoiled);
                Ok(())
            }
            Phase::Spoiled => Err(self.bad_last()),
        }
    }
}
