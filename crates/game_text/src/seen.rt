//! How often the position of a game has occurred.

ghost use Rattle.std.specs.Prelude.{
  ◌≡◌,
  ◌∷◌,
  ◌++◌,
  ◌<◌,
  ◌≤◌,
  ◌-◌,
  [],
  false,
  length,
  take,
  IsTrue,
  IfOk,
  OnOk,
  OnErr,
  if◌then◌else◌,
};
ghost use Rattle.hive_model.specs.Histories.{position};
ghost use Rattle.hive_model.specs.Keys.{key};
ghost use Rattle.hive_model.specs.Repetition.{ends_as, outcome_under};
ghost use Rattle.game_text.specs.Reading.{is_third};
ghost use Rattle.game_text.specs.Seen.{Sees};

use hive_model::{Game, Repeats, State};
use std::alloc::{AllocError, Global};

/// The keys of a game's positions, stored only if the rule of third repetition is on.
#[derive(Drop)]
pub struct Seen {
    pub repetition: bool,
    pub keys: Repeats,
}

impl Seen {
    /// No keys, for a game with the rule off.
    pub fn off(alloc: Global) -> Seen
        ensures rule { result.repetition ≡ false }
        ensures none { result.keys ≡ [] }
    {
        Seen {
            repetition: false,
            keys: Repeats::new(alloc),
        }
    }

    /// The key of a game before its first ply.
    pub fn of<G: Game>(alloc: Global, repetition: bool, game: &G) -> Result<Seen, AllocError>
        requires { (G.history game.now).made ≡ [] }
        ensures rule { IfOk result (λ s. s.repetition ≡ repetition) }
        ensures seen { IfOk result (λ s. Sees s (G.history game.now)) }
    {
        let mut seen = Seen {
            repetition,
            keys: Repeats::new(alloc),
        };
        seen.note(game)?;
        Ok(seen)
    }

    /// Appends the key of the game's position, if the rule is on. If memory runs out, the keys do
    /// not change.
    pub fn note<G: Game>(&mut self, game: &G) -> Result<(), AllocError>
        requires { length self.old.keys < 10000 }
        ensures pushed { OnOk result (self.new.keys
            ≡ (if self.old.repetition then self.old.keys ++ key (position (G.history game.now))
            ∷ [] else self.old.keys)) }
        ensures same { self.new.repetition ≡ self.old.repetition }
        ensures refused { OnErr result (self.new ≡ self.old) }
    {
        if self.repetition {
            self.keys.push(game.key())?;
        }
        Ok(())
    }

    /// Drops the last key, if the rule is on.
    pub fn forget(&mut self)
        requires { IsTrue self.old.repetition → 1 ≤ length self.old.keys }
        ensures popped { self.new.keys ≡ (if self.old.repetition then take
            (length self.old.keys - 1) self.old.keys else self.old.keys) }
        ensures same { self.new.repetition ≡ self.old.repetition }
    {
        if self.repetition {
            self.keys.pop();
        }
    }

    /// Whether the rule is on and the last position occurs for the third time.
    pub fn is_third(&self) -> bool
        requires { IsTrue self.now.repetition → 1 ≤ length self.now.keys }
        ensures { result ≡ is_third self.now.repetition self.now.keys }
    {
        self.repetition && self.keys.is_third()
    }

    /// The outcome of the game, if its position has this state.
    fn ends_as(&self, state: State) -> State
        requires { IsTrue self.now.repetition → 1 ≤ length self.now.keys }
        ensures { result ≡ ends_as (is_third self.now.repetition self.now.keys) state }
    {
        if self.is_third() && !state.is_over() {
            State::Draw
        } else {
            state
        }
    }

    /// The outcome of the game whose keys these are.
    pub fn outcome<G: Game>(&self, game: &G) -> State
        requires { Sees self.now (G.history game.now) }
        ensures { result ≡ outcome_under self.now.repetition (G.history game.now).game_type
            (G.history game.now).made }
    {
        self.ends_as(game.state())
    }
}
