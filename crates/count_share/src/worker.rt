//! A worker, and its classes of moves.

ghost use Rattle.std.specs.Prelude.{◌≡◌, ◌-◌, ◌^◌, ◌<◌, ◌≤◌, [], IfOk, OnOk};
ghost use Rattle.std.specs.List.{All};
ghost use Rattle.hive_model.specs.Lists.{IsOn};
ghost use Rattle.hive_model.specs.Legal.{moves};
ghost use Rattle.hive_model.specs.Games.{after};
ghost use Rattle.hive_model.specs.Minimax.{lines};
ghost use Rattle.hive_model.specs.Histories.{position};
ghost use Rattle.count_share.specs.Classes.{lines_of};
ghost use Rattle.count_share.specs.Shares.{CanCount, HasCounted, HasTaken, idle};

use crate::classes::MoveClass;
use hive_model::{Game, Move, MoveStack};
use plain_search::{MoveCounts, count_lines};
use std::alloc::{AllocError, Global};
use std::marker::Model;

/// A worker: a game of its own with what a count needs, the classes that it counts, and the number
/// of lists that it counted last.
#[derive(Drop)]
pub(crate) struct CountWorker<G: Game> {
    game: G,
    stack: MoveStack,
    counts: MoveCounts,
    classes: Vec<MoveClass>,
    total: u128,
}

impl<G: Game> Model for CountWorker<G> {
    ghost use Rattle.count_share.specs.Shares.{Share};

    ghost Value = { Share };

    ghost view = { λ w. record {
      history = G.history w.game;
      free = w.stack.free;
      classes = w.classes.items;
      total = w.total;
    } };
}

/// The number of lists of `plies` legal moves that follow a legal move. Game and stack do not
/// change.
fn lines_behind<G: Game>(
    game: &mut G,
    m: Move,
    plies: u32,
    stack: &mut MoveStack,
    counts: &mut MoveCounts,
) -> u128
    requires few { plies ≤ 7 }
    requires legal { IsOn (moves (position (G.history game.old))) m }
    requires spare { plies < (G.history game.old).spare }
    requires room { plies ≤ stack.old.free }
    ensures count { result ≡ lines (after (position (G.history game.old)) m) plies }
    ensures game { G.history game.new ≡ G.history game.old }
    ensures stack { stack.new ≡ stack.old }
{
    game.play(m);
    let lines = count_lines(game, plies, stack, counts);
    game.undo();
    lines
}

/// The number of lists of `plies` legal moves that begin with a move of these classes. Game and
/// stack do not change.
fn count_classes<G: Game>(
    game: &mut G,
    classes: &[MoveClass],
    plies: u32,
    stack: &mut MoveStack,
    counts: &mut MoveCounts,
) -> u128
    requires some { 1 ≤ plies }
    requires few { plies ≤ 8 }
    requires legal { All (λ c. IsOn (moves (position (G.history game.old))) c.moved) classes.now }
    requires spare { plies ≤ (G.history game.old).spare }
    requires room { plies ≤ stack.old.free }
    requires fits { lines_of (position (G.history game.old)) (plies - 1) classes.now < 2 ^ 128 }
    ensures count { result ≡ lines_of (position (G.history game.old)) (plies - 1) classes.now }
    ensures game { G.history game.new ≡ G.history game.old }
    ensures stack { stack.new ≡ stack.old }
{
    let mut total = 0;
    for i in 0..classes.len() {
        let class = classes[i];
        let behind = lines_behind(game, class.moved, plies - 1, stack, counts);
        total += class.weight as u128 * behind;
    }
    total
}

impl<G: Game + Drop> CountWorker<G> {
    /// A worker with no class yet, for counts of up to this many plies, from 1 to 8. So many
    /// positions keep the count of their moves. The only error is that memory runs out.
    pub(crate) fn new(
        alloc: Global,
        game: G,
        plies: u32,
        room: u32,
    ) -> Result<CountWorker<G>, AllocError>
        requires some { 1 ≤ plies }
        requires few { plies ≤ 8 }
        ensures { IfOk result (λ w. w ≡ idle (G.history game) plies) }
    {
        Ok(CountWorker {
            game,
            stack: MoveStack::new(alloc, plies)?,
            counts: MoveCounts::new(alloc, room)?,
            classes: Vec::new(alloc),
            total: 0,
        })
    }

    /// Takes over a class.
    pub(crate) fn take(&mut self, class: MoveClass) -> Result<(), AllocError>
        ensures { OnOk result (HasTaken class self.old self.new) }
    {
        self.classes.push(class)?;
        Ok(())
    }

    /// Counts the lists of so many legal moves that begin with a move of its classes.
    pub(crate) fn count(&mut self, plies: u32)
        requires { CanCount plies self.old }
        ensures { HasCounted plies self.old self.new }
    {
        self.total = count_classes(
            &mut self.game,
            self.classes.as_slice(),
            plies,
            &mut self.stack,
            &mut self.counts,
        );
    }

    /// The number of lists that it counted last.
    pub(crate) fn total(&self) -> u128
        ensures { result ≡ self.now.total }
    {
        self.total
    }
}
