//! What the machine provides for a tournament: a clock for each game, and progress on standard
//! error.
ghost use Rattle.std.specs.Prelude.{◌≡◌};
ghost use Rattle.tournament_core.specs.Schedules.{IsPlan};

use cup::Program;
use machine_edge::MachineClock;
use std::alloc::Global;
use std::io::Eprint;
use std::marker::Model;
use std::sync::atomic::{AtomicU64, Ordering};
use std::{str, time};
use tournament_core::{Plan, Standing, Tally, standings};
use tournament_edge::{Clocks, Progress};

/// How many leaders are shown.
const LEADERS: usize = 3;

/// The least number of seconds from one showing of all standings to the next.
const PAUSE: u64 = 60;

/// The machine's clocks, and standard error, on which progress is shown.
///
/// Contracts see only whether standard error is a terminal.
#[derive(Drop)]
pub struct Hall<'a, R> {
    rt: &'a R,
    alloc: Global,
    is_terminal: bool,
    /// The second of the clock at which all standings were last shown.
    last: AtomicU64,
}

impl<'a, R> Model for Hall<'a, R> {
    ghost use Rattle.std.specs.Prelude.{Bool};

    ghost Value = { Bool };

    ghost view = { λ h. h.is_terminal };
}

/// The second that the machine's clock shows, or 0 if it cannot be read.
fn second<R: time::Clock>(rt: &R) -> u64 {
    match rt.monotonic() {
        Ok(moment) => moment.as_secs(),
        Err(_) => 0,
    }
}

impl<'a, R: Eprint + time::Clock> Hall<'a, R> {
    /// A hall that shows the progress of a tournament on standard error. A terminal shows one line
    /// that changes. Anything else gets a line each time, and all standings each minute.
    pub fn new(rt: &'a R, alloc: Global, is_terminal: bool) -> Self
        ensures { result ≡ is_terminal }
    {
        Hall {
            rt,
            alloc,
            is_terminal,
            last: AtomicU64::new(second(rt)),
        }
    }

    /// Shows the program and the points of a standing, after some text.
    fn show_standing(&self, before: &str, programs: &[Program], place: &Standing) {
        let Some(program) = programs.get((place.engine as usize).saturating_sub(1)) else {
            return;
        };
        // if standard error fails too, the standing is not shown
        if let Ok(text) = str::from_utf8(program.text()) {
            let _ = eprint!(self.rt; "{}{} {}", before, text, place.points);
        }
    }

    /// Shows how many games are done, and after that the leaders.
    fn show_leaders(&self, programs: &[Program], plan: Plan, tally: &Tally, places: &[Standing])
        requires { IsPlan plan }
    {
        let _ = eprint!(self.rt; "{} of {} games", tally.games(), plan.games());
        for place in places.iter().take(LEADERS) {
            self.show_standing(", ", programs, place);
        }
    }

    /// Shows a line that overwrites its previous one. The last one is ended.
    fn show_on_terminal(&self, programs: &[Program], plan: Plan, tally: &Tally, places: &[Standing])
        requires { IsPlan plan }
    {
        let _ = eprint!(self.rt; "\r\x1b[K");
        self.show_leaders(programs, plan, tally, places);
        if plan.games() <= tally.games() {
            let _ = self.rt.eprintln("");
        }
    }

    /// Whether a minute has passed since all standings were last shown. Then they are shown now.
    fn is_minute_over(&self) -> bool {
        let now = second(self.rt);
        if now.saturating_sub(self.last.load(Ordering::SeqCst)) < PAUSE {
            return false;
        }
        self.last.store(now, Ordering::SeqCst);
        true
    }

    /// Shows a line, and all standings if a minute has passed since they were last shown.
    fn show_in_lines(&self, programs: &[Program], plan: Plan, tally: &Tally, places: &[Standing])
        requires { IsPlan plan }
    {
        self.show_leaders(programs, plan, tally, places);
        let _ = self.rt.eprintln("");
        if self.is_minute_over() {
            for place in places {
                self.show_standing("    ", programs, place);
                let _ = self.rt.eprintln("");
            }
        }
    }
}

impl<'a, R: time::Clock + Sync> Clocks for Hall<'a, R> {
    type Each = MachineClock<'a, R>;

    fn clock(&self) -> MachineClock<'a, R> {
        MachineClock::new(self.rt)
    }
}

impl<'a, R: Eprint + time::Clock> Progress for Hall<'a, R> {
    fn show(&self, programs: &[Program], plan: Plan, tally: &Tally) {
        let Ok(places) = standings(self.alloc, tally) else {
            return;
        };
        if self.is_terminal {
            self.show_on_terminal(programs, plan, tally, places.items());
        } else {
            self.show_in_lines(programs, plan, tally, places.items());
        }
    }
}
