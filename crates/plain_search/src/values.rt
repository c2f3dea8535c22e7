//! The minimax value of a position.

ghost use Rattle.std.specs.Prelude.{◌≡◌};
ghost use Rattle.hive_model.specs.Minimax.{value, reply_value};
ghost use Rattle.hive_model.specs.Histories.{position};
ghost use Rattle.search_laws.specs.Nodes.{HasRoom, CanReply, AreAsBefore};

use hive_model::{Game, Move, MoveStack};
use search_laws::leaf_value;

/// A number below the value of every position.
const LOWEST: i32 = -1_000_100;

/// The minimax value of the position for its side to move at `depth`, from 0 to 64: every line of
/// play is searched, without windows or tables. At depth 0, and if the game is over, it is the
/// value of the position itself. The game and the stack do not change.
#[cycle(minimax)]
pub fn minimax<G: Game>(game: &mut G, depth: u32, stack: &mut MoveStack) -> i32
    requires room { HasRoom depth (G.history game.old) stack.old }
    ensures worth { result ≡ value (position (G.history game.old)) depth }
    ensures before { AreAsBefore (G.history game.old) (G.history game.new) stack.old stack.new }
{
    if let Some(worth) = leaf_value(game, depth) {
        return worth;
    }
    let level = stack.levels();
    game.list(stack);
    let count = stack.level_len(level);
    let mut best = LOWEST;
    for i in 0..count {
        let m = stack.get(level, i);
        best = best.max(reply(game, m, depth - 1, stack));
    }
    stack.drop_level();
    best
}

/// The value of a legal move for the side that makes it, with `depth` plies searched after it.
#[cycle(minimax)]
fn reply<G: Game>(game: &mut G, m: Move, depth: u32, stack: &mut MoveStack) -> i32
    requires can { CanReply m depth (G.history game.old) stack.old }
    ensures worth { result ≡ reply_value (position (G.history game.old)) depth m }
    ensures before { AreAsBefore (G.history game.old) (G.history game.new) stack.old stack.new }
{
    game.play(m);
    let worth = minimax(game, depth, stack);
    game.undo();
    -worth
}
