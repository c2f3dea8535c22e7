//! A clock that strikes once the shared bound was raised.

ghost use Rattle.std.specs.Prelude.{◌≡◌, ◌≤◌, ◌≤ℤ◌};
ghost use Rattle.io_edge.specs.Clocks.{TellsTime};
ghost use Rattle.root_share.specs.Bells.{HasRung};
ghost use Rattle.root_share.specs.Word.{IsSeat};

use crate::word::{BoundSeat, Word, look};
use hive_model::Game;
use io_edge::Clock;
use std::marker::Model;

/// The reading of a bell that has struck: the first one after the bound was raised, and all later
/// ones.
pub(crate) const STRIKE: u64 = 1;

/// A clock that watches the bound which the workers share. It reads 0 until a reading at which the
/// bound is higher than when the bell was made. From then on it reads `STRIKE`.
#[derive(Drop)]
pub(crate) struct Bell<'a, G: Game> {
    word: &'a Word<G>,
    seat: BoundSeat,
    made_for: i32,
    last: u64,
    previous: u64,
    readings: u64,
}

impl<'a, G: Game> Model for Bell<'a, G> {
    ghost use Rattle.root_share.specs.Bells.{Strokes, IsBell};

    ghost Value = { Strokes };

    ghost view = { λ b. record {
      last = b.last;
      previous = b.previous;
      readings = b.readings;
      made_for = b.made_for;
      top = b.seat.me.0.top;
      looks = b.seat.me.0.looks;
    } };

    ghost invariant = { λ b. IsBell b.word.now.table_id b.seat b.made_for b.last };
}

impl<'a, G: Game> Bell<'a, G> {
    /// A bell that has not struck, made for this bound.
    pub(crate) fn new(word: &'a Word<G>, seat: BoundSeat, bound: i32) -> Bell<'a, G>
        requires seat { IsSeat word.now.table_id seat }
        requires deep { seat.me.0.depth ≤ 64 }
        requires low { seat.me.0.top ≤ℤ bound }
        ensures { result ≡ record {
          last = 0;
          previous = 0;
          readings = 0;
          made_for = bound;
          top = seat.me.0.top;
          looks = seat.me.0.looks;
        } }
    {
        Bell {
            word,
            seat,
            made_for: bound,
            last: 0,
            previous: 0,
            readings: 0,
        }
    }
}

impl<G: Game> Clock for Bell<'_, G> {
    ghost last = { λ b. b.last };

    ghost previous = { λ b. b.previous };

    ghost readings = { λ b. b.readings };

    /// `STRIKE` exactly if the bound is now higher than when the bell was made.
    fn now(&mut self) -> u64
        ensures time { TellsTime result self.old.last self.new.last self.old.readings
            self.new.readings }
        ensures previous { self.new.previous ≡ self.old.last }
        ensures rung { HasRung self.old self.new }
    {
        let bound = look(self.word, &mut self.seat);
        self.previous = self.last;
        if bound > self.made_for {
            self.last = STRIKE;
        }
        self.readings = self.readings.saturating_add(1);
        self.last
    }
}
