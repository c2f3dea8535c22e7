//! One game of a wave.
ghost use Rattle.std.specs.Prelude.{◌≡◌, Some, None, IfOk, OnErr, OnOk, MatchOption, is_none};
ghost use Rattle.std.specs.Option.{option_map};
ghost use Rattle.match_runner.specs.Wires.{wire};
ghost use Rattle.tournament_games.specs.Tournaments.{begin_of};
ghost use Rattle.tournament_games.specs.Texts.{absence_outcome};
ghost use Rattle.tournament_games.specs.Games.{
  Goes,
  IsPlayed,
  IsSameGame,
  WasRun,
  unplayed,
};

use crate::outcome::ToldGame;
use crate::texts::{tell_absence, tell_match};
use crate::tournament::Tournament;
use game_text::played;
use hive_model::{Colour, Game};
use io_edge::Link;
use match_runner::run_match_from;
use std::alloc::{AllocError, Global};
use std::marker::Model;
use tournament_core::Fixture;
use tournament_edge::Clocks;

/// A game of a wave. It has its number, counted from 1, its opening and its engines. It has the
/// links to white's program and to black's, if they were started. It has the outcome, once the game
/// was played.
#[derive(Drop)]
pub(crate) struct Job<L: Link> {
    number: u64,
    fixture: Fixture,
    white: Option<L>,
    black: Option<L>,
    outcome: Option<ToldGame>,
}

impl<L: Link> Model for Job<L> {
    ghost use Rattle.std.specs.Option.{option_map};
    ghost use Rattle.match_runner.specs.Wires.{wire};
    ghost use Rattle.tournament_games.specs.Games.{Job as AnyJob};

    ghost Value = { AnyJob };

    ghost view = { λ j. record {
      number = j.number;
      fixture = j.fixture;
      white = option_map
          (λ l. wire (L.rest l) (L.written l) (L.read_faults l) (L.write_faults l)) j.white;
      black = option_map
          (λ l. wire (L.rest l) (L.written l) (L.read_faults l) (L.write_faults l)) j.black;
      outcome = j.outcome;
    } };
}

/// Runs the match of a game over the links of its two programs, from its opening.
fn run<L: Link, G: Game + Drop, M: Clocks>(
    alloc: Global,
    tournament: &Tournament,
    clocks: &M,
    number: u64,
    fixture: Fixture,
    white: &mut L,
    black: &mut L,
) -> Result<ToldGame, AllocError>
    ensures { IfOk result (λ told. WasRun tournament.now number fixture
        (wire (L.rest white.old) (L.written white.old)
        (L.read_faults white.old) (L.write_faults white.old))
        (wire (L.rest white.new) (L.written white.new)
        (L.read_faults white.new) (L.write_faults white.new))
        (wire (L.rest black.old) (L.written black.old)
        (L.read_faults black.old) (L.write_faults black.old))
        (wire (L.rest black.new) (L.written black.new)
        (L.read_faults black.new) (L.write_faults black.new)) told) }
{
    let setup = tournament.setup();
    let game: G = played(alloc, setup.game_type, tournament.begin(fixture), 0)?;
    let mut clock = clocks.clock();
    let referee = run_match_from(alloc, white, black, &mut clock, setup, game)?;
    tell_match(alloc, setup, number, fixture, &referee)
}

/// The outcome of a game for which a side's program could not be started.
fn forfeit<G: Game + Drop>(
    alloc: Global,
    tournament: &Tournament,
    number: u64,
    fixture: Fixture,
    side: Colour,
) -> Result<ToldGame, AllocError>
    ensures { IfOk result (λ told.
        told ≡ absence_outcome tournament.now.setup number fixture
        (begin_of tournament.now fixture) side) }
{
    let begin = tournament.begin(fixture);
    tell_absence::<G>(alloc, tournament.setup(), number, fixture, begin, side)
}

/// Plays a game over the links that exist.
fn play_over<L: Link, G: Game + Drop, M: Clocks>(
    alloc: Global,
    tournament: &Tournament,
    clocks: &M,
    number: u64,
    fixture: Fixture,
    white: &mut Option<L>,
    black: &mut Option<L>,
) -> Result<ToldGame, AllocError>
    ensures white { is_none white.new ≡ is_none white.old }
    ensures black { is_none black.new ≡ is_none black.old }
    ensures goes { IfOk result (λ told. Goes tournament.now number fixture
        (option_map
        (λ l. wire (L.rest l) (L.written l) (L.read_faults l) (L.write_faults l)) white.old)
        (option_map
        (λ l. wire (L.rest l) (L.written l) (L.read_faults l) (L.write_faults l)) white.new)
        (option_map
        (λ l. wire (L.rest l) (L.written l) (L.read_faults l) (L.write_faults l)) black.old)
        (option_map
        (λ l. wire (L.rest l) (L.written l) (L.read_faults l) (L.write_faults l)) black.new) told) }
{
    match white {
        None => forfeit::<G>(alloc, tournament, number, fixture, Colour::White),
        Some(white) => match black {
            None => forfeit::<G>(alloc, tournament, number, fixture, Colour::Black),
            Some(black) => run::<L, G, M>(alloc, tournament, clocks, number, fixture, white, black),
        },
    }
}

impl<L: Link> Job<L> {
    /// A game that was not played yet.
    pub(crate) fn new(number: u64, fixture: Fixture, white: Option<L>, black: Option<L>) -> Job<L>
        ensures { result ≡ unplayed number fixture
            (option_map
            (λ l. wire (L.rest l) (L.written l) (L.read_faults l) (L.write_faults l)) white)
            (option_map
            (λ l. wire (L.rest l) (L.written l) (L.read_faults l) (L.write_faults l)) black) }
    {
        Job {
            number,
            fixture,
            white,
            black,
            outcome: None,
        }
    }

    /// Plays the game: its match if both programs were started, otherwise a forfeit. If memory ran
    /// out, the game has no outcome, and its links are as the calls so far left them.
    pub(crate) fn play<G: Game + Drop, M: Clocks>(
        &mut self,
        alloc: Global,
        tournament: &Tournament,
        clocks: &M,
    ) -> Result<(), AllocError>
        ensures same { IsSameGame self.old self.new }
        ensures played { OnOk result (IsPlayed tournament.now self.old self.new) }
        ensures err { OnErr result (self.new.outcome ≡ None) }
    {
        self.outcome = None;
        let outcome = play_over::<L, G, M>(
            alloc,
            tournament,
            clocks,
            self.number,
            self.fixture,
            &mut self.white,
            &mut self.black,
        )?;
        self.outcome = Some(outcome);
        Ok(())
    }
}

impl<L: Link> Job<L> {
    /// Its opening and its engines.
    pub(crate) fn fixture(&self) -> Fixture
        ensures { result ≡ self.now.fixture }
    {
        self.fixture
    }

    /// The outcome of the game, once it was played.
    pub(crate) fn outcome(&self) -> Option<&ToldGame>
        ensures { MatchOption result (self.now.outcome ≡ None)
            (λ told. self.now.outcome ≡ Some told.now) }
    {
        self.outcome.as_ref()
    }

    /// The links as they are, white's first.
    pub(crate) fn links(self) -> (Option<L>, Option<L>)
        ensures white { option_map
            (λ l. wire (L.rest l) (L.written l) (L.read_faults l) (L.write_faults l)) result.0
            ≡ self.white }
        ensures black { option_map
            (λ l. wire (L.rest l) (L.written l) (L.read_faults l) (L.write_faults l)) result.1
            ≡ self.black }
    {
        (self.white, self.black)
    }
}
