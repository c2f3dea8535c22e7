//! The terms of a tournament.
ghost use Rattle.std.specs.Prelude.{◌≡◌, ◌≤◌, length};
ghost use Rattle.std.specs.List.{All};
ghost use Rattle.hive_model.specs.Games.{IsGame};
ghost use Rattle.hive_model.specs.Histories.{most_plies};
ghost use Rattle.match_core.specs.Keeps.{IsSetup};
ghost use Rattle.tournament_core.specs.Schedules.{IsPlan};
ghost use Rattle.tournament_record.specs.Openings.{IsOpening};
ghost use Rattle.tournament_games.specs.Tournaments.{IsTerms, begin_of, terms};

use cup::Program;
use hive_model::{Move, MoveList};
use match_core::Setup;
use std::marker::Model;
use tournament_core::{Fixture, Plan};

/// The terms of a tournament: its 2 to 64 programs, its plan, the setup of each match, and the
/// moves of each opening. The plan says who plays whom, and how often. `at_once`, 1 to 64, says how
/// many games are played at once.
#[derive(Drop)]
pub struct Tournament {
    programs: Vec<Program>,
    plan: Plan,
    setup: Setup,
    openings: Vec<MoveList>,
    at_once: u32,
}

impl Model for Tournament {
    ghost use Rattle.tournament_games.specs.Tournaments.{IsTerms, Terms, terms};

    ghost Value = { Terms };

    ghost view = { λ t. terms t.programs.items t.plan t.setup t.openings.items t.at_once };

    ghost invariant = { λ t. IsTerms
        (terms t.programs.items t.plan t.setup t.openings.items t.at_once) };
}

impl Tournament {
    /// A tournament of these programs. The plan has as many engines as there are programs, and as
    /// many openings as are given. Each opening is a game of the setup's type.
    pub fn new(
        programs: Vec<Program>,
        plan: Plan,
        setup: Setup,
        openings: Vec<MoveList>,
        at_once: u32,
    ) -> Tournament
        requires valid { IsTerms (terms programs.items plan setup openings.items at_once) }
        ensures { result ≡ terms programs.items plan setup openings.items at_once }
    {
        Tournament {
            programs,
            plan,
            setup,
            openings,
            at_once,
        }
    }

    /// The programs, in the order of their engines' numbers.
    pub fn programs(&self) -> &[Program]
        ensures { result.now ≡ self.now.engines }
    {
        self.programs.as_slice()
    }

    /// Who plays whom, and how often.
    pub fn plan(&self) -> Plan
        ensures value { result ≡ self.now.plan }
        ensures valid { IsPlan result }
        ensures engines { length self.now.engines ≡ result.engines }
        ensures openings { length self.now.openings ≡ result.openings }
    {
        self.plan
    }

    /// The setup of each match.
    pub fn setup(&self) -> Setup
        ensures value { result ≡ self.now.setup }
        ensures valid { IsSetup result }
    {
        self.setup
    }

    /// The moves of each opening.
    pub(crate) fn openings(&self) -> &[MoveList]
        ensures value { result.now ≡ self.now.openings }
        ensures each { All (IsOpening self.now.setup.game_type) result.now }
    {
        self.openings.as_slice()
    }

    /// The greatest number of games that are played at once, 1 to 64.
    pub fn at_once(&self) -> u32
        ensures value { result ≡ self.now.at_once }
        ensures some { 1 ≤ result }
        ensures few { result ≤ 64 }
    {
        self.at_once
    }

    /// The moves that a game begins with. There are none if there is no such opening.
    pub(crate) fn begin(&self, fixture: Fixture) -> &[Move]
        ensures value { result.now ≡ begin_of self.now fixture }
        ensures game { IsGame self.now.setup.game_type result.now }
        ensures few { length result.now ≤ most_plies }
    {
        match self.openings.get(fixture.opening as usize) {
            Some(moves) => moves.items(),
            None => &[],
        }
    }
}
