//! The numbers of legal moves in positions that were met.

ghost use Rattle.std.specs.Prelude.{
  ◌≡◌,
  ◌<◌,
  ◌↔◌,
  ℕ,
  IfOk,
  IfSome,
  IsTrue,
  length,
  replicate,
  slice_set,
};
ghost use Rattle.plain_search.specs.Met.{HasMoves, KeepsAt};

use hive_model::Key;
use std::alloc::{AllocError, Global};
use std::hash::{FoldHasher, Hash, Hasher};
use std::marker::Model;

/// A key, and the number of legal moves in each sound position with it.
#[derive(Clone, Copy)]
struct Met {
    key: Key,
    moves: u32,
}

/// The numbers of legal moves in positions that were met, by their keys. Contracts see the list of
/// rows, each of which stores one key with its number, or is free. Of two keys with the same row,
/// the later one is kept.
#[derive(Drop)]
pub struct MoveCounts {
    places: Vec<Option<Met>>,
}

impl Model for MoveCounts {
    ghost use Rattle.std.specs.Prelude.{List, Option};
    ghost use Rattle.plain_search.specs.declared.move_counts.Met.{Met};
    ghost use Rattle.plain_search.specs.Met.{AreMet};

    ghost Value = { List (Option Met) };

    ghost view = { λ c. c.places.items };

    ghost invariant = { λ c. AreMet c.places.items };
}

/// The hash of a key, which selects its row.
fn number_of(key: &Key) -> u64 {
    let mut state = FoldHasher::default();
    key.hash(&mut state);
    state.finish()
}

/// Whether the two keys are equal.
fn are_equal(key: &Key, other: &Key) -> bool
    ensures { IsTrue result ↔ key.now ≡ other.now }
{
    key.turn() == other.turn() && key.same_board(other)
}

impl MoveCounts {
    /// Room for this many positions, all of it free. Without room, nothing is ever known. The only
    /// error is that memory runs out.
    pub fn new(alloc: Global, room: u32) -> Result<MoveCounts, AllocError>
        ensures room { IfOk result (λ counts. length counts ≡ room) }
        ensures free { IfOk result (λ counts. counts ≡ replicate room None) }
    {
        Ok(MoveCounts {
            places: vec![in alloc; None; room as usize]?,
        })
    }

    /// Whether there is room for at least one position.
    pub(crate) fn has_room(&self) -> bool
        ensures { IsTrue result ↔ 0 < length self.now }
    {
        !self.places.is_empty()
    }

    /// The index of the row for the key.
    pub(crate) fn place_of(&self, key: &Key) -> usize
        requires { 0 < length self.now }
        ensures { result < length self.now }
    {
        (number_of(key) % self.places.len() as u64) as usize
    }

    /// The number of legal moves in each sound position with the key, if the row stores the key. If
    /// it stores another key or is free, nothing is known.
    pub(crate) fn look(&self, place: usize, key: &Key) -> Option<u32>
        requires { place < length self.now }
        ensures kept { (n : ℕ) → result ≡ Some n ↔ KeepsAt self.now place key.now n }
        ensures holds { IfSome result (λ n. HasMoves key.now n) }
    {
        let met = self.places[place]?;
        if are_equal(&met.key, key) {
            Some(met.moves)
        } else {
            None
        }
    }

    /// Stores the number for the key in the row, in place of what it had before.
    pub(crate) fn keep(&mut self, place: usize, key: Key, moves: u32)
        requires place { place < length self.old }
        requires moves { HasMoves key moves }
        ensures { self.new ≡ slice_set self.old place (Some (record { key = key; moves = moves })) }
    {
        self.places[place] = Some(Met { key, moves });
    }
}
