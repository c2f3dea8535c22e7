//! The worth of a move, without making it.

ghost use Rattle.std.specs.Prelude.{◌≡◌, ◌-◌, ◌<◌, ◌≤◌, length, IfSome};
ghost use Rattle.hive_model.specs.Legal.{moves};
ghost use Rattle.hive_model.specs.Lists.{IsOn};
ghost use Rattle.hive_model.specs.Minimax.{reply_value};
ghost use Rattle.hive_model.specs.Histories.{position};
ghost use Rattle.hive_model.specs.Stack.{level_of};
ghost use Rattle.search_laws.specs.Found.{IsFound, IsOpen};
ghost use Rattle.search_core.specs.Times.{AreAtMost};

use crate::workspace::Node;
use hive_model::{Game, Move, MoveStack};
use search_laws::Window;

/// The worth of a legal move to the side that makes it, with no ply left after it, or an upper
/// bound of it. The bound is at or below the lower end of the window.
fn told_leaf<G: Game>(game: &mut G, m: Move, window: Window) -> Option<i32>
    requires window { IsOpen window }
    requires legal { IsOn (moves (position (G.history game.old))) m }
    ensures found { IfSome result (IsFound (reply_value (position (G.history game.old)) 0 m)
        window) }
    ensures same { G.history game.new ≡ G.history game.old }
    ensures count { G.played game.new ≡ G.played game.old }
{
    if let Some(worth) = game.value_after(m.again()) {
        return Some(-worth);
    }
    let least = game.least_after(m)?;
    if least < -window.alpha {
        return None;
    }
    Some(-least)
}

/// An upper bound of a legal move's worth with one ply left after it, if it is at or below the
/// lower end of the window.
fn told_bound<G: Game>(game: &mut G, m: Move, window: Window) -> Option<i32>
    requires window { IsOpen window }
    requires legal { IsOn (moves (position (G.history game.old))) m }
    ensures found { IfSome result (IsFound (reply_value (position (G.history game.old)) 1 m)
        window) }
    ensures same { G.history game.new ≡ G.history game.old }
    ensures count { G.played game.new ≡ G.played game.old }
{
    let least = game.least_after(m.again())?;
    if least < -window.alpha {
        return None;
    }
    let most = game.most_after(m)?;
    if most <= window.alpha {
        Some(most)
    } else {
        None
    }
}

/// The answer of a search of a legal move with so many plies left after it, if the game values it
/// without a play. With no ply left it is the worth, or a bound at or below the lower end. With one
/// ply left it is such a bound.
pub(crate) fn told_reply<G: Game>(game: &mut G, m: Move, node: Node) -> Option<i32>
    requires window { IsOpen node.window }
    requires legal { IsOn (moves (position (G.history game.old))) m }
    ensures found { IfSome result (IsFound (reply_value (position (G.history game.old)) node.depth
        m) node.window) }
    ensures same { G.history game.new ≡ G.history game.old }
    ensures count { G.played game.new ≡ G.played game.old }
{
    match node.depth {
        0 => told_leaf(game, m, node.window),
        1 => told_bound(game, m, node.window),
        _ => None,
    }
}

/// The place of the next move of the level, from `from` on, that may raise alpha. Each move that is
/// passed over is worth no more. No move is passed over if a ply is left after the moves of the
/// node.
pub(crate) fn next_candidate<G: Game>(
    game: &mut G,
    depth: u32,
    stack: &MoveStack,
    level: u32,
    from: u32,
    alpha: i32,
) -> u32
    requires stands { level < length stack.now.lists }
    requires listed { level_of stack.now level ≡ moves (position (G.history game.old)) }
    requires from { from ≤ length (moves (position (G.history game.old))) }
    ensures passed { AreAtMost (position (G.history game.old)) (depth - 1) alpha from result }
    ensures same { G.history game.new ≡ G.history game.old }
    ensures count { G.played game.new ≡ G.played game.old }
{
    if depth > 1 {
        return from;
    }
    game.next_candidate(stack, level, from, alpha)
}
