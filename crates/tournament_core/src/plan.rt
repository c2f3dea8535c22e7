//! The plan of a tournament, and its games, which are never listed.

ghost use Rattle.std.specs.Prelude.{◌≡◌, ◌<◌, ◌≤◌, ◌^◌, length, slice_get, Some};
ghost use Rattle.tournament_core.specs.Schedules.{IsPlan, IsFixture, pairs, schedule};

use crate::fixtures::Fixture;
use crate::pairs::{Pair, pair_at};

/// The numbers of engines, rounds and openings. In a gauntlet the first engine meets each other
/// one. Otherwise every engine meets every other one.
#[derive(Clone, Copy, Debug, PartialEq, Eq)]
pub struct Plan {
    pub engines: u32,
    pub rounds: u32,
    pub openings: u32,
    pub gauntlet: bool,
}

impl Plan {
    /// The number of pairs of engines that meet.
    fn pairs(&self) -> u64
        requires valid { IsPlan self.now }
        ensures all { result ≡ length (pairs self.now) }
        ensures some { 1 ≤ result }
        ensures few { result ≤ 2016 }
    {
        let engines = u64::from(self.engines);
        if self.gauntlet {
            engines - 1
        } else {
            engines * (engines - 1) / 2
        }
    }

    /// The number of games of the tournament.
    pub fn games(&self) -> u64
        requires valid { IsPlan self.now }
        ensures all { result ≡ length (schedule self.now) }
        ensures few { result < 2 ^ 42 }
    {
        u64::from(self.rounds) * u64::from(self.openings) * self.pairs() * 2
    }

    /// The pair at a place, counted from 0.
    fn pair(&self, place: u32) -> Pair
        requires valid { IsPlan self.now }
        requires within { place < length (pairs self.now) }
        ensures there { slice_get (pairs self.now) place ≡ Some result }
        ensures low { 1 ≤ result.first }
        ensures other { result.first < result.second }
        ensures high { result.second ≤ self.now.engines }
    {
        if self.gauntlet {
            Pair {
                first: 1,
                second: place + 2,
            }
        } else {
            pair_at(self.engines, place)
        }
    }

    /// The game that is played after this number of games.
    pub fn fixture(&self, before: u64) -> Fixture
        requires valid { IsPlan self.now }
        requires within { before < length (schedule self.now) }
        ensures there { slice_get (schedule self.now) before ≡ Some result }
        ensures engines { IsFixture self.now.engines result }
        ensures opening { result.opening < self.now.openings }
    {
        let pairs = self.pairs();
        let pair = self.pair((before / 2 % pairs) as u32);
        let opening = (before / 2 / pairs % u64::from(self.openings)) as u32;
        if before % 2 == 0 {
            Fixture {
                opening,
                white: pair.first,
                black: pair.second,
            }
        } else {
            Fixture {
                opening,
                white: pair.second,
                black: pair.first,
            }
        }
    }
}
