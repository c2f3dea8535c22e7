//! The keys of a game's positions, stored to count how often the last position has occurred.

ghost use Rattle.std.specs.Prelude.{
  ◌≡◌,
  ◌-◌,
  ◌<◌,
  ◌≤◌,
  [],
  ◌∷◌,
  ◌++◌,
  length,
  nat_le,
  take,
  OnOk,
  OnErr,
};
ghost use Rattle.hive_model.specs.Repetition.{count_same, count_last};

use crate::key::Key;
use crate::number_counts::{count_down, count_of, count_up};
use indexmap::IndexMap;
use std::alloc::{AllocError, Global};
use std::marker::Model;

/// At most 10,000 keys in order, and for each number how many of the keys have it. Keys of one
/// board have the same number, so that most boards are known at once to be new.
#[derive(Drop)]
pub struct Repeats {
    kept: Vec<Key>,
    counts: IndexMap<u64, u32>,
}

impl Model for Repeats {
    ghost use Rattle.std.specs.Prelude.{◌≤◌, List, length};
    ghost use Rattle.hive_model.specs.Keys.{KeyParts};
    ghost use Rattle.hive_model.specs.NumberCounts.{AreCounted};

    ghost Value = { List KeyParts };

    ghost view = { λ r. r.kept.items };

    ghost invariant = { λ r. (length r.kept.items ≤ 10000) × AreCounted r.kept.items r.counts };
}

/// How many of the keys have the same board as this one.
fn count_same(key: &Key, keys: &[Key]) -> u32
    requires { length keys.now ≤ 10000 }
    ensures { result ≡ count_same key.now keys.now }
{
    let mut times = 0;
    for other in keys {
        if key.same_board(other) {
            times += 1;
        }
    }
    times
}

impl Repeats {
    /// No keys yet. The allocator is kept for those to come.
    pub fn new(alloc: Global) -> Repeats
        ensures { result ≡ [] }
    {
        Repeats {
            kept: Vec::new(alloc),
            counts: IndexMap::new(alloc),
        }
    }

    /// Appends a key. Fewer than 10,000 must be stored. If memory runs out, the keys do not change.
    pub fn push(&mut self, key: Key) -> Result<(), AllocError>
        requires { length self.old < 10000 }
        ensures pushed { OnOk result (self.new ≡ self.old ++ key ∷ []) }
        ensures refused { OnErr result (self.new ≡ self.old) }
    {
        self.kept.reserve(1)?;
        count_up(&mut self.counts, key.number())?;
        self.kept.push_reserved(key);
        Ok(())
    }

    /// Drops the last key.
    pub fn pop(&mut self)
        requires { 1 ≤ length self.old }
        ensures { self.new ≡ take (length self.old - 1) self.old }
    {
        if let Some(key) = self.kept.pop() {
            count_down(&mut self.counts, key.number());
        }
    }

    /// How many of the keys have the same board as the last one, which is counted too. The turn
    /// does not matter.
    pub fn times(&self) -> u32
        requires { 1 ≤ length self.now }
        ensures { result ≡ count_last self.now }
    {
        let keys = self.kept.as_slice();
        count_same(&keys[keys.len() - 1], keys)
    }

    /// Whether at least three of the keys, the last one included, have the board of the last one.
    /// The turn does not matter. The keys are compared only if at least three of them have the
    /// number of the last one.
    pub fn is_third(&self) -> bool
        requires { 1 ≤ length self.now }
        ensures { result ≡ nat_le 3 (count_last self.now) }
    {
        let keys = self.kept.as_slice();
        3 <= count_of(&self.counts, keys[keys.len() - 1].number()) && 3 <= self.times()
    }
}
