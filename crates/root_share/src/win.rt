//! A win that a worker looks for before it searches.

ghost use Rattle.std.specs.Prelude.{◌≡◌, ◌+◌, ◌≤◌, [], ◌∷◌, ◌≤ℤ◌, IfSome};
ghost use Rattle.hive_model.specs.Legal.{moves};
ghost use Rattle.hive_model.specs.Minimax.{value};
ghost use Rattle.hive_model.specs.Histories.{position};
ghost use Rattle.root_share.specs.Word.{IsReply};
ghost use Rattle.root_share.specs.Taken.{KeepsRoot};
ghost use Rattle.root_share.specs.Ready.{MayBegin};
ghost use Rattle.root_share.specs.Workers.{HasPlayed};

use crate::behind::end_behind;
use crate::word::{BoundSeat, look, raise};
use crate::work::RootWork;
use crate::worker::Worker;
use hive_model::{Game, MoveStack};
use search_core::likely_win;

/// The value of the root's move that seems to win at once, if the root has one and it ends the
/// game. The move is played and undone.
fn likely_end<G: Game>(game: &mut G, root: &MoveStack, depth: u32) -> Option<i32>
    requires some { 1 ≤ depth }
    requires deep { depth ≤ 64 }
    requires spare { 1 ≤ (G.history game.old).spare }
    requires listed { root.now.lists ≡ moves (position (G.history game.old)) ∷ [] }
    ensures reply { IfSome result (IsReply (position (G.history game.old)) depth) }
    ensures game { G.history game.new ≡ G.history game.old }
    ensures played { G.played game.new ≤ G.played game.old + 1 }
{
    let Some(place) = likely_win(game, root, 0) else {
        return None;
    };
    if place >= root.level_len(0) {
        return None;
    }
    end_behind(game, root.get(0, place), depth - 1)
}

/// The current bound, after a look for a win at once. If the bound is lower than such a win, the
/// root's move that seems to win is played and undone, whichever worker it belongs to. If it ends
/// the game and its value is above the bound, the bound is raised to it. At most that one move is
/// played.
pub(crate) fn look_for_win<G: Game, T>(
    work: &RootWork<'_, G, T>,
    seat: &mut BoundSeat,
    worker: &mut Worker<G>,
) -> i32
    requires begin { MayBegin G.history work.now worker.old seat.old }
    ensures seat { KeepsRoot work.now seat.old seat.new }
    ensures top { seat.new.me.0.top ≡ result }
    ensures grows { seat.old.me.0.top ≤ℤ result }
    ensures most { result ≤ℤ value seat.old.me.0.root work.now.depth }
    ensures worker { HasPlayed G.history G.played worker.old worker.new 1 }
{
    let bound = look(work.word, seat);
    if bound >= 1_000_000 + (work.depth - 1) as i32 {
        return bound;
    }
    let Some(worth) = likely_end(&mut worker.game, work.root, work.depth) else {
        return bound;
    };
    if worth <= bound {
        return bound;
    }
    raise(work.word, seat, worth);
    worth
}
