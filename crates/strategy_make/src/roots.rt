//! Writing the least indices that show which move is best.

ghost use Rattle.std.specs.Prelude.{◌≡◌, ◌≤◌, slice_get, Some, false};
ghost use Rattle.io_edge.specs.Outside.{HasCause};
ghost use Rattle.hive_model.specs.Lists.{IsOn};
ghost use Rattle.hive_model.specs.Legal.{moves};
ghost use Rattle.hive_model.specs.Minimax.{IsInner};
ghost use Rattle.hive_model.specs.Histories.{position};
ghost use Rattle.search_laws.specs.Laws.{IsSmall};
ghost use Rattle.search_laws.specs.Nodes.{HasRoom, AreAsBefore};
ghost use Rattle.strategy_check.specs.Least.{least_moves};
ghost use Rattle.certificate_walks.specs.Claims.{HasReplies};
ghost use Rattle.certificate_indices.specs.Writing.{Wrote, index_lines};
ghost use Rattle.strategy_make.specs.Making.{least_indices};

use certificate_indices::{Judge, write_child, write_moves};
use certificate_walks::Limit;
use hive_model::{Best, Game, MoveStack};
use io_edge::Sink;
use strategy_check::find_move;

/// Writes the least indices that show that the move at `place` is best, and its value, with `depth`
/// plies left after it.
fn write_root<G: Game, J: Judge, K: Sink>(
    judge: &mut J,
    game: &mut G,
    level: u32,
    place: u32,
    depth: u32,
    best: &Best,
    stack: &mut MoveStack,
    sink: &mut K,
) -> bool
    requires replies { HasReplies depth level (G.history game.old) stack.old }
    requires ready { depth ≤ J.prepared judge.old }
    requires small { IsSmall 1000064 best.now.value }
    requires place { slice_get (moves (position (G.history game.old))) place ≡ Some best.now.best }
    ensures wrote { Wrote result
        (index_lines (least_moves (position
        (G.history game.old)) depth place best.now.best best.now.value))
        (K.written sink.old) (K.written sink.new) }
    ensures cause { HasCause (result ≡ false) (K.write_faults sink.old) (K.write_faults sink.new) }
    ensures before { AreAsBefore (G.history game.old) (G.history game.new) stack.old stack.new }
    ensures same { J.prepared judge.new ≡ J.prepared judge.old }
{
    let count = stack.level_len(level);
    let less = Limit::AtLeast(1 - best.value);
    let most = Limit::AtMost(-best.value);
    let least = Limit::AtLeast(-best.value);
    if !write_moves(judge, game, level, 0, place, depth, less, stack, sink) {
        return false;
    }
    if !write_child(judge, game, best.best, depth, most, stack, sink) {
        return false;
    }
    if !write_child(judge, game, best.best, depth, least, stack, sink) {
        return false;
    }
    let from = place + 1;
    write_moves(judge, game, level, from, count, depth, least, stack, sink)
}

/// Writes the least indices that show that a legal move is best, and its value, with `depth` plies
/// searched. The game is not over. Game and stack are as before. The answer is whether everything
/// was written.
pub(crate) fn write_least<G: Game, J: Judge, K: Sink>(
    judge: &mut J,
    game: &mut G,
    depth: u32,
    best: &Best,
    stack: &mut MoveStack,
    sink: &mut K,
) -> bool
    requires inner { IsInner (position (G.history game.old)) depth }
    requires room { HasRoom depth (G.history game.old) stack.old }
    requires ready { depth ≤ J.prepared judge.old }
    requires small { IsSmall 1000064 best.now.value }
    requires legal { IsOn (moves (position (G.history game.old))) best.now.best }
    ensures wrote { Wrote result
        (index_lines (least_indices (position
        (G.history game.old)) depth best.now.best best.now.value))
        (K.written sink.old) (K.written sink.new) }
    ensures cause { HasCause (result ≡ false) (K.write_faults sink.old) (K.write_faults sink.new) }
    ensures before { AreAsBefore (G.history game.old) (G.history game.new) stack.old stack.new }
    ensures same { J.prepared judge.new ≡ J.prepared judge.old }
{
    let level = stack.levels();
    game.list(stack);
    let place = find_move(level, best.best, stack).unwrap();
    let written = write_root(judge, game, level, place, depth - 1, best, stack, sink);
    stack.drop_level();
    written
}
