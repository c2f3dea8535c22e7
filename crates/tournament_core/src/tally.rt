//! A tally of the games of a tournament.

ghost use Rattle.std.specs.Prelude.{◌≡◌, ◌+◌, ◌<◌, ◌≤◌, ◌^◌, ◌≢◌, ℕ, [], ◌∷◌, ◌++◌, List, IfOk, if◌then◌else◌};
ghost use Rattle.tournament_core.specs.Schedules.{IsEngine, IsFixture};
ghost use Rattle.tournament_core.specs.Ends.{PlayedFixture};
ghost use Rattle.tournament_core.specs.Counts.{IsTallyOf, count_at, one_at};

use crate::fixtures::{Fixture, GameEnd};
use crate::grid::Grid;
use std::alloc::{AllocError, Global};
use std::marker::Model;

/// How often each engine beat each other one, drew with it, and lost to it by forfeit.
#[derive(Drop)]
pub struct Tally {
    engines: u32,
    games: u64,
    wins: Grid,
    draws: Grid,
    forfeits: Grid,
}

impl Model for Tally {
    ghost use Rattle.tournament_core.specs.Counts.{Counts, IsTally};

    ghost Value = { Counts };

    ghost view = { λ t. record {
      engines = t.engines;
      games = t.games;
      wins = t.wins;
      draws = t.draws;
      forfeits = t.forfeits;
    } };

    ghost invariant = { λ t. IsTally t.engines t.games t.wins t.draws t.forfeits };
}

impl Tally {
    /// A tally of no games, with room for all counts. The only error is running out of memory.
    pub fn new(alloc: Global, engines: u32) -> Result<Tally, AllocError>
        requires some { 2 ≤ engines }
        requires few { engines ≤ 64 }
        ensures engines { IfOk result (λ tally. tally.engines ≡ engines) }
        ensures empty { IfOk result (λ tally. IsTallyOf [] tally) }
    {
        let width = engines as usize + 1;
        let wins = Grid::new(alloc, width)?;
        let draws = Grid::new(alloc, width)?;
        let forfeits = Grid::new(alloc, width)?;
        Ok(Tally {
            engines,
            games: 0,
            wins,
            draws,
            forfeits,
        })
    }

    /// The number of its engines.
    pub fn engines(&self) -> u32
        ensures value { result ≡ self.now.engines }
        ensures some { 2 ≤ result }
        ensures few { result ≤ 64 }
    {
        self.engines
    }

    /// The number of games that were noted.
    pub fn games(&self) -> u64
        ensures value { result ≡ self.now.games }
        ensures few { result ≤ 2 ^ 42 }
    {
        self.games
    }

    /// How often one engine beat another one.
    pub fn wins(&self, one: u32, other: u32) -> u64
        requires one { IsEngine self.now.engines one }
        requires other { IsEngine self.now.engines other }
        ensures value { result ≡ count_at self.now.wins one other }
        ensures few { result ≤ 2 ^ 42 }
    {
        self.wins.get(one, other)
    }

    /// How often two engines drew.
    pub fn draws(&self, one: u32, other: u32) -> u64
        requires one { IsEngine self.now.engines one }
        requires other { IsEngine self.now.engines other }
        ensures value { result ≡ count_at self.now.draws one other }
        ensures few { result ≤ 2 ^ 42 }
    {
        self.draws.get(one, other)
    }

    /// How often one engine lost to another one by forfeit.
    pub fn forfeits(&self, one: u32, other: u32) -> u64
        requires one { IsEngine self.now.engines one }
        requires other { IsEngine self.now.engines other }
        ensures value { result ≡ count_at self.now.forfeits one other }
        ensures few { result ≤ 2 ^ 42 }
    {
        self.forfeits.get(one, other)
    }

    /// Notes a game that neither side won.
    fn note_draw(&mut self, white: u32, black: u32)
        requires white { IsEngine self.old.engines white }
        requires black { IsEngine self.old.engines black }
        requires other { white ≢ black }
        requires room { self.old.games < 2 ^ 42 }
        ensures engines { self.new.engines ≡ self.old.engines }
        ensures games { self.new.games ≡ self.old.games + 1 }
        ensures wins { self.new.wins ≡ self.old.wins }
        ensures forfeits { self.new.forfeits ≡ self.old.forfeits }
        ensures draws { (i j : ℕ) → IsEngine self.old.engines i → IsEngine self.old.engines j
            → count_at self.new.draws i j
            ≡ count_at self.old.draws i j + one_at white black i j + one_at black white i j }
    {
        self.draws.add(white, black);
        self.draws.add(black, white);
        self.games += 1;
    }

    /// Notes a game that one engine won, perhaps because the other one forfeited.
    fn note_win(&mut self, winner: u32, loser: u32, forfeited: bool)
        requires winner { IsEngine self.old.engines winner }
        requires loser { IsEngine self.old.engines loser }
        requires room { self.old.games < 2 ^ 42 }
        ensures engines { self.new.engines ≡ self.old.engines }
        ensures games { self.new.games ≡ self.old.games + 1 }
        ensures draws { self.new.draws ≡ self.old.draws }
        ensures wins { (i j : ℕ) → IsEngine self.old.engines i → IsEngine self.old.engines j
            → count_at self.new.wins i j ≡ count_at self.old.wins i j + one_at winner loser i j }
        ensures forfeits { (i j : ℕ) → IsEngine self.old.engines i → IsEngine self.old.engines j
            → count_at self.new.forfeits i j
            ≡ count_at self.old.forfeits i j + (if forfeited then one_at loser winner i j else 0) }
    {
        self.wins.add(winner, loser);
        if forfeited {
            self.forfeits.add(loser, winner);
        }
        self.games += 1;
    }

    /// Notes a game.
    pub fn note(&mut self, fixture: Fixture, ended: GameEnd)
        requires fixture { IsFixture self.old.engines fixture }
        requires room { self.old.games < 2 ^ 42 }
        ensures engines { self.new.engines ≡ self.old.engines }
        ensures count { self.new.games ≡ self.old.games + 1 }
        ensures noted { (games : List PlayedFixture) → IsTallyOf games self.old
            → IsTallyOf (games ++ record { fixture = fixture; ended = ended } ∷ []) self.new }
    {
        match ended.winner {
            None => self.note_draw(fixture.white, fixture.black),
            Some(side) => {
                let winner = fixture.player(side);
                let loser = fixture.player(side.other());
                self.note_win(winner, loser, ended.forfeited);
            }
        }
    }
}
