//! Writes the least indices that show a limit.

ghost use Rattle.std.specs.Prelude.{◌≡◌, ◌<◌, ◌≤◌, length, false, IsTrue};
ghost use Rattle.io_edge.specs.Outside.{HasCause};
ghost use Rattle.hive_model.specs.Lists.{IsOn};
ghost use Rattle.hive_model.specs.Legal.{moves};
ghost use Rattle.hive_model.specs.Games.{after};
ghost use Rattle.hive_model.specs.Minimax.{IsInner};
ghost use Rattle.hive_model.specs.Histories.{position};
ghost use Rattle.hive_model.specs.Stack.{level_of};
ghost use Rattle.search_laws.specs.Leaves.{IsLeaf};
ghost use Rattle.search_laws.specs.Nodes.{HasRoom, IsNode, CanReply, AreAsBefore};
ghost use Rattle.certificate_walks.specs.Claims.{HasReplies};
ghost use Rattle.certificate_walks.specs.Follows.{range_of};
ghost use Rattle.strategy_check.specs.Least.{least};
ghost use Rattle.certificate_text.specs.Text.{index_line};
ghost use Rattle.certificate_indices.specs.Writing.{
  CanTell,
  Wrote,
  first_kept,
  index_lines,
  keeps_below,
  lines_below,
};

use crate::judge::Judge;
use certificate_text::index_line;
use certificate_walks::Limit;
use hive_model::{Game, Move, MoveStack};
use io_edge::{Sink, write_all};

/// Writes an index.
fn write_index<K: Sink>(index: u32, sink: &mut K) -> bool
    ensures wrote { Wrote result (index_line index) (K.written sink.old) (K.written sink.new) }
    ensures cause { HasCause (result ≡ false) (K.write_faults sink.old) (K.write_faults sink.new) }
{
    let line = index_line(index);
    write_all(sink, line.as_str().as_bytes())
}

/// Whether the limit is kept after a legal move.
fn is_kept_below<G: Game, J: Judge>(
    judge: &mut J,
    game: &mut G,
    m: Move,
    depth: u32,
    limit: Limit,
) -> bool
    requires deep { depth < 64 }
    requires told { CanTell depth limit (J.prepared judge.old) }
    requires legal { IsOn (moves (position (G.history game.old))) m }
    requires spare { depth < (G.history game.old).spare }
    ensures kept { result ≡ keeps_below (position (G.history game.old)) depth limit m }
    ensures game { G.history game.new ≡ G.history game.old }
    ensures same { J.prepared judge.new ≡ J.prepared judge.old }
{
    game.play(m);
    let kept = judge.is_kept(game, depth, limit);
    game.undo();
    kept
}

/// The place of the first of the legal moves after which the limit is kept. The moves are on the
/// level.
fn find_kept<G: Game, J: Judge>(
    judge: &mut J,
    game: &mut G,
    level: u32,
    depth: u32,
    limit: Limit,
    stack: &MoveStack,
) -> Option<u32>
    requires deep { depth < 64 }
    requires told { CanTell depth limit (J.prepared judge.old) }
    requires spare { depth < (G.history game.old).spare }
    requires level { level < length stack.now.lists }
    requires listed { level_of stack.now level ≡ moves (position (G.history game.old)) }
    ensures found { result ≡ first_kept (position (G.history game.old)) depth limit
        (moves (position (G.history game.old))) }
    ensures game { G.history game.new ≡ G.history game.old }
    ensures same { J.prepared judge.new ≡ J.prepared judge.old }
{
    let count = stack.level_len(level);
    for i in 0..count {
        let m = stack.get(level, i);
        if is_kept_below(judge, game, m, depth, limit) {
            return Some(i);
        }
    }
    None
}

/// Whether no move is tried, because no ply is left to search or the game is over.
fn is_leaf<G: Game>(game: &G, depth: u32) -> bool
    ensures leaf { IsTrue result → IsLeaf (position (G.history game.now)) depth }
    ensures inner { result ≡ false → IsInner (position (G.history game.now)) depth }
{
    depth == 0 || game.state().is_over()
}

/// Writes the least indices that show the limit of what the position is worth, with `depth` plies
/// left to search, from 0 to 64. If the limit is not kept, the indices show nothing. Game and stack
/// are as before. The answer is whether everything was written.
#[cycle(write)]
pub fn write_indices<G: Game, J: Judge, K: Sink>(
    judge: &mut J,
    game: &mut G,
    depth: u32,
    limit: Limit,
    stack: &mut MoveStack,
    sink: &mut K,
) -> bool
    requires room { HasRoom depth (G.history game.old) stack.old }
    requires told { CanTell depth limit (J.prepared judge.old) }
    ensures wrote { Wrote result (index_lines (least (position (G.history game.old)) depth limit))
        (K.written sink.old) (K.written sink.new) }
    ensures cause { HasCause (result ≡ false) (K.write_faults sink.old) (K.write_faults sink.new) }
    ensures before { AreAsBefore (G.history game.old) (G.history game.new) stack.old stack.new }
    ensures same { J.prepared judge.new ≡ J.prepared judge.old }
{
    if is_leaf(game, depth) {
        return true;
    }
    let level = stack.levels();
    game.list(stack);
    let written = write_node(judge, game, level, depth, limit, stack, sink);
    stack.drop_level();
    written
}

/// The same if the game goes on and a ply is left. The legal moves are on the level.
#[cycle(write)]
fn write_node<G: Game, J: Judge, K: Sink>(
    judge: &mut J,
    game: &mut G,
    level: u32,
    depth: u32,
    limit: Limit,
    stack: &mut MoveStack,
    sink: &mut K,
) -> bool
    requires node { IsNode depth level (G.history game.old) stack.old }
    requires told { CanTell depth limit (J.prepared judge.old) }
    ensures wrote { Wrote result (index_lines (least (position (G.history game.old)) depth limit))
        (K.written sink.old) (K.written sink.new) }
    ensures cause { HasCause (result ≡ false) (K.write_faults sink.old) (K.write_faults sink.new) }
    ensures before { AreAsBefore (G.history game.old) (G.history game.new) stack.old stack.new }
    ensures same { J.prepared judge.new ≡ J.prepared judge.old }
{
    match limit {
        Limit::AtMost(most) => {
            let count = stack.level_len(level);
            let below = Limit::AtLeast(-most);
            write_moves(judge, game, level, 0, count, depth - 1, below, stack, sink)
        }
        Limit::AtLeast(least) => {
            let below = Limit::AtMost(-least);
            let Some(place) = find_kept(judge, game, level, depth - 1, below, stack) else {
                return true;
            };
            if !write_index(place, sink) {
                return false;
            }
            let m = stack.get(level, place);
            write_child(judge, game, m, depth - 1, below, stack, sink)
        }
    }
}

/// Writes the indices of one limit after each move of a level at places from `from` to `to - 1`,
/// with `depth` plies left after each.
#[cycle(write)]
pub fn write_moves<G: Game, J: Judge, K: Sink>(
    judge: &mut J,
    game: &mut G,
    level: u32,
    from: u32,
    to: u32,
    depth: u32,
    limit: Limit,
    stack: &mut MoveStack,
    sink: &mut K,
) -> bool
    requires replies { HasReplies depth level (G.history game.old) stack.old }
    requires told { CanTell depth limit (J.prepared judge.old) }
    requires before { to ≤ length (moves (position (G.history game.old))) }
    ensures wrote { Wrote result (lines_below (position (G.history game.old)) depth limit
        (range_of (moves (position (G.history game.old))) from to)) (K.written sink.old)
        (K.written sink.new) }
    ensures cause { HasCause (result ≡ false) (K.write_faults sink.old) (K.write_faults sink.new) }
    ensures before { AreAsBefore (G.history game.old) (G.history game.new) stack.old stack.new }
    ensures same { J.prepared judge.new ≡ J.prepared judge.old }
{
    for i in from..to {
        let m = stack.get(level, i);
        if !write_child(judge, game, m, depth, limit, stack, sink) {
            return false;
        }
    }
    true
}

/// Writes the indices of a limit after a legal move, with `depth` plies left after it.
#[cycle(write)]
pub fn write_child<G: Game, J: Judge, K: Sink>(
    judge: &mut J,
    game: &mut G,
    m: Move,
    depth: u32,
    limit: Limit,
    stack: &mut MoveStack,
    sink: &mut K,
) -> bool
    requires can { CanReply m depth (G.history game.old) stack.old }
    requires told { CanTell depth limit (J.prepared judge.old) }
    ensures wrote { Wrote result (index_lines
        (least (after (position (G.history game.old)) m) depth limit)) (K.written sink.old)
        (K.written sink.new) }
    ensures cause { HasCause (result ≡ false) (K.write_faults sink.old) (K.write_faults sink.new) }
    ensures before { AreAsBefore (G.history game.old) (G.history game.new) stack.old stack.new }
    ensures same { J.prepared judge.new ≡ J.prepared judge.old }
{
    game.play(m);
    let written = write_indices(judge, game, depth, limit, stack, sink);
    game.undo();
    written
}
