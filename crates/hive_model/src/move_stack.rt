//! A stack of lists of moves, one list for each level of a search.

ghost use Rattle.std.specs.Prelude.{◌≡◌, ◌+◌, ◌-◌, ◌<◌, ◌≤◌, [], length, slice_get, Some, IfOk};
ghost use Rattle.hive_model.specs.Stack.{level_of, with_level, without_level, with_move_on_top};

use crate::places::Move;
use std::alloc::{AllocError, Global};
use std::marker::Model;

/// Lists of moves, one for each level, up to a number of levels that is fixed when the stack is
/// made.
#[derive(Drop)]
pub struct MoveStack {
    lists: Vec<Vec<Move>>,
    used: usize,
}

impl Model for MoveStack {
    ghost use Rattle.std.specs.Prelude.{◌-◌, ◌≤◌, map, take, vec_len, vec_capacity};
    ghost use Rattle.std.specs.List.{All};
    ghost use Rattle.hive_model.specs.Stack.{Levels};

    ghost Value = { Levels };

    ghost view = { λ s. record {
      lists = map (λ v. v.items) (take s.used s.lists.items);
      free = vec_len s.lists - s.used;
    } };

    ghost invariant = { λ s. (s.used ≤ vec_len s.lists) × (vec_len s.lists ≤ 66)
        × All (λ v. (5488 ≤ vec_capacity v) × (vec_len v ≤ 5488)) s.lists.items };
}

impl MoveStack {
    /// Room for this many levels, from 1 to 66, of 5,488 moves each (28 pieces times 196 places).
    /// All memory is taken here.
    pub fn new(alloc: Global, levels: u32) -> Result<MoveStack, AllocError>
        requires few { levels ≤ 66 }
        requires some { 1 ≤ levels }
        ensures { IfOk result (λ s. (s.lists ≡ []) × (s.free ≡ levels)) }
    {
        let mut lists = Vec::with_capacity(alloc, levels as usize)?;
        for _ in 0..levels {
            lists.push(Vec::with_capacity(alloc, 5488)?)?;
        }
        Ok(MoveStack { lists, used: 0 })
    }

    /// The number of further levels that there is room for.
    pub fn free_levels(&self) -> u32
        ensures { result ≡ self.now.free }
    {
        (self.lists.len() - self.used) as u32
    }

    /// The number of levels in use.
    pub fn levels(&self) -> u32
        ensures { result ≡ length self.now.lists }
    {
        self.used as u32
    }

    /// Begins an empty level.
    pub fn begin_level(&mut self)
        requires { 1 ≤ self.old.free }
        ensures { self.new ≡ with_level self.old [] }
    {
        let list = &mut self.lists[self.used];
        list.clear();
        self.used += 1;
    }

    /// Appends a move to the last level.
    pub fn push(&mut self, m: Move)
        requires level { 1 ≤ length self.old.lists }
        requires room { length (level_of self.old (length self.old.lists - 1)) < 5488 }
        ensures { self.new ≡ with_move_on_top self.old m }
    {
        let list = &mut self.lists[self.used - 1];
        let _ = list.push(m);
    }

    /// The number of moves of a level. Levels are counted from 0.
    pub fn level_len(&self, level: u32) -> u32
        requires { level < length self.now.lists }
        ensures { result ≡ length (level_of self.now level) }
    {
        self.lists[level as usize].len() as u32
    }

    /// A move of a level. Levels and moves are counted from 0.
    pub fn get(&self, level: u32, i: u32) -> Move
        requires level { level < length self.now.lists }
        requires place { i < length (level_of self.now level) }
        ensures { slice_get (level_of self.now level) i ≡ Some result }
    {
        self.lists[level as usize][i as usize]
    }

    /// Drops the last level with its moves.
    pub fn drop_level(&mut self)
        requires { 1 ≤ length self.old.lists }
        ensures { self.new ≡ without_level self.old }
    {
        self.used -= 1;
    }
}
