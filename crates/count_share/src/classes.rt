//! The classes of the legal moves of a game. After two moves of one class the positions are alike:
//! rotations, reflections and shifts of one another.

ghost use Rattle.std.specs.Prelude.{
  ◌≡◌,
  ◌+◌,
  ◌-◌,
  ◌^◌,
  ◌<◌,
  ◌≤◌,
  IfOk,
  IfSome,
  IsTrue,
  OnOk,
  length,
  slice_get,
  Some,
};
ghost use Rattle.count_share.specs.declared.classes.MoveClass.{MoveClass as AnyClass};
ghost use Rattle.std.specs.List.{All};
ghost use Rattle.hive_model.specs.Lists.{IsOn};
ghost use Rattle.hive_model.specs.Legal.{moves};
ghost use Rattle.hive_model.specs.Games.{IsGame, after};
ghost use Rattle.hive_model.specs.Histories.{position, with_move};
ghost use Rattle.hive_model.specs.Keys.{key};
ghost use Rattle.count_share.specs.Classes.{
  AreAlike,
  AreClasses,
  HasOneMore,
};

use hive_model::{Game, Key, Move, MoveStack};
use std::alloc::{AllocError, Global};
use symmetry::{Symmetry, alike};

/// A class of legal moves: its first move, the number of its moves, and the key of the position
/// after the first move.
#[derive(Clone, Copy)]
pub struct MoveClass {
    pub moved: Move,
    pub weight: u32,
    pub key: Key,
}

/// Whether the positions of the two keys are alike.
fn are_alike(from: &Key, to: &Key) -> bool
    ensures { IsTrue result → AreAlike from.now to.now }
{
    for index in 0..12u8 {
        if alike(from, to, Symmetry::at(index)).is_some() {
            return true;
        }
    }
    false
}

/// The index of a class whose key is alike to this one, if there is one.
fn class_like(classes: &[MoveClass], key: &Key) -> Option<usize>
    ensures within { IfSome result (λ i. i < length classes.now) }
    ensures like { IfSome result (λ i. (c : AnyClass) → slice_get classes.now i ≡ Some c
        → AreAlike c.key key.now) }
{
    for i in 0..classes.len() {
        if are_alike(&classes[i].key, key) {
            return Some(i);
        }
    }
    None
}

/// The key of the position after a legal move. The game does not change.
fn key_after<G: Game>(game: &mut G, m: Move) -> Key
    requires legal { IsOn (moves (position (G.history game.old))) m }
    requires spare { 1 ≤ (G.history game.old).spare }
    ensures key { result ≡ key (after (position (G.history game.old)) m) }
    ensures goes_on { IsGame (G.history game.old).game_type
        (with_move (G.history game.old) m).made }
    ensures short { length (G.history game.old).made + 1 ≤ 5064 }
    ensures game { G.history game.new ≡ G.history game.old }
{
    game.play(m);
    game.lemma_sound();
    let _few = game.plies();
    let key = game.key();
    game.undo();
    key
}

/// Adds a move to its class, or as a class of its own if the position after it is alike to no
/// earlier one.
fn add_move<G: Game>(game: &mut G, m: Move, classes: &mut Vec<MoveClass>) -> Result<(), AllocError>
    requires legal { IsOn (moves (position (G.history game.old))) m }
    requires spare { 1 ≤ (G.history game.old).spare }
    requires few { All (λ c. c.weight < 2 ^ 32 - 1) classes.old.items }
    ensures more { OnOk result (HasOneMore (G.history game.old) m classes.old.items
        classes.new.items) }
    ensures game { G.history game.new ≡ G.history game.old }
{
    let key = key_after(game, m.again());
    if let Some(place) = class_like(classes, &key) {
        classes[place].weight += 1;
        return Ok(());
    }
    classes.push(MoveClass {
        moved: m,
        weight: 1,
        key,
    })?;
    Ok(())
}

/// The classes of the legal moves of a game, in the order of their first moves. The game does not
/// change. The only error is that memory runs out.
pub fn classes_of<G: Game>(alloc: Global, game: &mut G) -> Result<Vec<MoveClass>, AllocError>
    requires { 1 ≤ (G.history game.old).spare }
    ensures classes { IfOk result (λ cs. AreClasses (position (G.history game.old)) cs.items) }
    ensures game { G.history game.new ≡ G.history game.old }
{
    let mut root = MoveStack::new(alloc, 1)?;
    game.list(&mut root);
    let mut classes = Vec::new(alloc);
    for i in 0..root.level_len(0) {
        let m = root.get(0, i);
        add_move(game, m, &mut classes)?;
    }
    Ok(classes)
}
