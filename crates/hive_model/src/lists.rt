//! Small lists that contracts see as lists.

ghost use Rattle.std.specs.Prelude.{◌≡◌, ◌≤◌, [], ◌∷◌, ◌++◌, length, OnOk, OnErr};
ghost use Rattle.std.specs.List.{insert};

use crate::best::Timed;
use crate::places::Move;
use std::alloc::{AllocError, Global};
use std::marker::Model;

/// Items in order.
#[derive(Drop)]
pub struct ItemList<T> {
    kept: Vec<T>,
}

impl<T> Model for ItemList<T> {
    ghost use Rattle.std.specs.Prelude.{List};

    ghost Value = { List T };

    ghost view = { λ l. l.kept.items };
}

impl<T: Drop> ItemList<T> {
    /// The empty list. It keeps the allocator.
    pub fn new(alloc: Global) -> ItemList<T>
        ensures { result ≡ [] }
    {
        ItemList {
            kept: Vec::new(alloc),
        }
    }

    /// Appends an item. If memory runs out, the list does not change.
    pub fn push(&mut self, item: T) -> Result<(), AllocError>
        ensures pushed { OnOk result (self.new ≡ self.old ++ item ∷ []) }
        ensures refused { OnErr result (self.new ≡ self.old) }
    {
        self.kept.push(item)?;
        Ok(())
    }

    /// Inserts an item before the one at this index, or at the end if the index is the length. If
    /// memory runs out, the list does not change.
    pub fn insert(&mut self, index: usize, item: T) -> Result<(), AllocError>
        requires { index ≤ length self.old }
        ensures put { OnOk result (self.new ≡ insert self.old index item) }
        ensures refused { OnErr result (self.new ≡ self.old) }
    {
        self.kept.insert(index, item)?;
        Ok(())
    }

    /// The items in order.
    pub fn items(&self) -> &[T]
        ensures { result.now ≡ self.now }
    {
        self.kept.as_slice()
    }
}

impl<T: Copy + Drop> ItemList<T> {
    /// Appends all of these items, or none if memory runs out.
    pub fn push_all(&mut self, items: &[T]) -> Result<(), AllocError>
        ensures pushed { OnOk result (self.new ≡ self.old ++ items.now) }
        ensures refused { OnErr result (self.new ≡ self.old) }
    {
        self.kept.extend_from_slice(items)?;
        Ok(())
    }
}

/// Moves in order.
pub type MoveList = ItemList<Move>;

/// The bytes of a line.
pub type LineText = ItemList<u8>;

/// The bytes of a reply.
pub type ReplyText = ItemList<u8>;

/// One entry for each timed search that was answered, in order.
pub type TimedList = ItemList<Timed>;
