//! A game of a cup.

ghost use Rattle.std.specs.Prelude.{◌≡◌, Some, None, OnOk, OnErr, MatchOption};
ghost use Rattle.match_runner.specs.Wires.{wire};
ghost use Rattle.cup.specs.Played.{IsJob, IsSameGame, IsPlayed, ready};

use crate::pairing::Pairing;
use hive_model::Game;
use io_edge::{Link, StepClock};
use match_core::{Referee, Setup};
use match_runner::run_match;
use std::alloc::{AllocError, Global};
use std::marker::Model;

/// A game of a cup: the numbers of two engines, a link to each, the setup, and the referee once it
/// was played. Contracts see what a link has left to read, what was written to it, and how often
/// its calls have failed.
#[derive(Drop)]
pub struct CupJob<L: Link, G: Game> {
    white: u32,
    black: u32,
    white_link: L,
    black_link: L,
    setup: Setup,
    referee: Option<Referee<G>>,
}

impl<L: Link, G: Game> Model for CupJob<L, G> {
    ghost use Rattle.match_runner.specs.Wires.{wire};
    ghost use Rattle.cup.specs.Played.{Job, IsJob};

    ghost Value = { Job };

    ghost view = { λ j. record {
      white = j.white;
      black = j.black;
      white_link = wire (L.rest j.white_link) (L.written j.white_link)
          (L.read_faults j.white_link) (L.write_faults j.white_link);
      black_link = wire (L.rest j.black_link) (L.written j.black_link)
          (L.read_faults j.black_link) (L.write_faults j.black_link);
      setup = j.setup;
      referee = j.referee;
    } };

    ghost invariant = { λ j. IsJob j.white j.black j.setup };
}

impl<L: Link, G: Game + Drop> CupJob<L, G> {
    /// A game of two different engines that was not played yet. Engines are asked to a depth.
    pub fn new(game: Pairing, white_link: L, black_link: L, setup: Setup) -> CupJob<L, G>
        requires game { IsJob game.white game.black setup }
        ensures { result ≡ ready setup game
            (wire (L.rest white_link) (L.written white_link)
            (L.read_faults white_link) (L.write_faults white_link))
            (wire (L.rest black_link) (L.written black_link)
            (L.read_faults black_link) (L.write_faults black_link)) }
    {
        CupJob {
            white: game.white,
            black: game.black,
            white_link,
            black_link,
            setup,
            referee: None,
        }
    }

    /// Plays the game. The referee is then that of a match over the two links, whatever was there
    /// before. Engines and setup stay. If memory ran out, the game counts as not played, and its
    /// links are as the calls so far left them.
    pub(crate) fn play(&mut self, alloc: Global) -> Result<(), AllocError>
        ensures same { IsSameGame self.old self.new }
        ensures played { OnOk result (IsPlayed self.old self.new) }
        ensures err { OnErr result (self.new.referee ≡ None) }
    {
        let mut clock = StepClock::new(0, 0);
        let played = run_match(
            alloc,
            &mut self.white_link,
            &mut self.black_link,
            &mut clock,
            self.setup,
        );
        self.referee = played.ok();
        if self.referee.is_none() {
            return Err(AllocError);
        }
        Ok(())
    }

    /// The referee of the game once it was played, and `None` before.
    pub fn referee(&self) -> Option<&Referee<G>>
        ensures { MatchOption result (self.now.referee ≡ None)
            (λ r. self.now.referee ≡ Some r.now) }
    {
        self.referee.as_ref()
    }

    /// The two links as they are, white's first.
    pub fn links(self) -> (L, L)
        ensures white { wire (L.rest result.0) (L.written result.0) (L.read_faults result.0)
            (L.write_faults result.0) ≡ self.white_link }
        ensures black { wire (L.rest result.1) (L.written result.1) (L.read_faults result.1)
            (L.write_faults result.1) ≡ self.black_link }
    {
        (self.white_link, self.black_link)
    }
}
