//! Children that are played but not searched.

ghost use Rattle.std.specs.Prelude.{◌≡◌, ◌+◌, ◌<◌, ◌≤◌, false, pos, ◌≤ℤ◌, MatchOption};
ghost use Rattle.hive_model.specs.Lists.{IsOn};
ghost use Rattle.hive_model.specs.Legal.{moves, is_over};
ghost use Rattle.hive_model.specs.Games.{after};
ghost use Rattle.hive_model.specs.Minimax.{reply_value};
ghost use Rattle.hive_model.specs.Histories.{position};
ghost use Rattle.root_share.specs.Children.{IsTested};

use hive_model::{Game, Move};
use search_laws::end_value;

/// The value of a legal move for the side that makes it, with `depth` plies searched after it, if
/// it ends the game. None if the game goes on. The move is played and undone.
pub(crate) fn end_behind<G: Game>(game: &mut G, m: Move, depth: u32) -> Option<i32>
    requires legal { IsOn (moves (position (G.history game.old))) m }
    requires deep { depth ≤ 64 }
    requires spare { 1 ≤ (G.history game.old).spare }
    ensures worth { MatchOption result (is_over (after (position (G.history game.old)) m) ≡ false)
        (λ v. v ≡ reply_value (position (G.history game.old)) depth m) }
    ensures game { G.history game.new ≡ G.history game.old }
    ensures played { G.played game.new ≤ G.played game.old + 1 }
{
    game.play(m);
    let end = end_value(game.state(), game.side(), depth);
    game.undo();
    match end {
        Some(worth) => Some(-worth),
        None => None,
    }
}

/// The value of a legal move if that is at least the bound, and otherwise a number below the bound.
/// The bound must be at least the value of a move that wins at once. If the game goes on after the
/// move, its value is below the bound.
pub(crate) fn value_behind<G: Game>(game: &mut G, m: Move, depth: u32, bound: i32) -> i32
    requires legal { IsOn (moves (position (G.history game.old))) m }
    requires deep { depth < 64 }
    requires spare { 1 ≤ (G.history game.old).spare }
    requires least { pos (1000000 + depth) ≤ℤ bound }
    ensures tested { IsTested (reply_value (position (G.history game.old)) depth m) bound result }
    ensures game { G.history game.new ≡ G.history game.old }
    ensures played { G.played game.new ≤ G.played game.old + 1 }
{
    match end_behind(game, m, depth) {
        Some(worth) => worth,
        None => bound - 1,
    }
}
