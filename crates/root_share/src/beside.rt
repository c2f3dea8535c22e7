//! How a worker begins that does not have the move that looks best. The bound is not yet known, and
//! it leaves its first child as soon as another worker raises the bound.

ghost use Rattle.std.specs.Prelude.{◌≡◌, ◌+◌, ◌≤◌, IfSome, pos, ◌-ℤ◌};
ghost use Rattle.hive_model.specs.Games.{after};
ghost use Rattle.hive_model.specs.Minimax.{reply_value, lowest};
ghost use Rattle.hive_model.specs.Costs.{cost};
ghost use Rattle.hive_model.specs.Histories.{position};
ghost use Rattle.root_share.specs.Word.{IsSeat};
ghost use Rattle.root_share.specs.Answer.{tried_cost, child_cost};
ghost use Rattle.root_share.specs.Ready.{MayTake};
ghost use Rattle.root_share.specs.Children.{MaySearch, IsBound, IsTested, IsChild};
ghost use Rattle.root_share.specs.Taken.{HasTried};
ghost use Rattle.root_share.specs.Workers.{HasPlayed};

use crate::bell::{Bell, STRIKE};
use crate::candidate::Candidate;
use crate::word::{BoundSeat, Word, halve, look};
use crate::work::{Child, RootWork};
use crate::worker::{Worker, close_child, settle, window_behind};
use hive_model::{Game, Move};

/// The outcome for the child that a worker began with.
pub(crate) enum TriedBeside {
    /// The child is known to be worth at most the bound, and is an answer if its value was found.
    Closed { found: Option<Candidate> },
    /// The bound was raised meanwhile, and nothing is known about the child.
    Left,
}

/// The value of a child if that is at least the bound, and otherwise a number below the bound. None
/// if another worker raised the bound meanwhile.
fn value_until_raised<G: Game>(
    word: &Word<G>,
    m: Move,
    depth: u32,
    bound: i32,
    seat: &mut BoundSeat,
    worker: &mut Worker<G>,
) -> Option<i32>
    requires seat { IsSeat word.now.table_id seat.old }
    requires known { seat.old.me.0.depth ≤ 64 }
    requires child { MaySearch (G.history worker.old.game) worker.old.searcher m depth }
    requires bound { IsBound bound }
    ensures tested { IfSome result
        (IsTested (reply_value (position (G.history worker.old.game)) depth m) bound) }
    ensures seat { IsSeat word.now.table_id seat.new }
    ensures view { seat.new.me.0 ≡ seat.old.me.0 }
    ensures worker { HasPlayed G.history G.played worker.old worker.new
        (tried_cost (position (G.history worker.old.game)) depth m bound) }
{
    let other = halve(word, seat);
    let mut bell = Bell::new(word, other, bound);
    worker.game.play(m);
    let behind = window_behind(bound);
    let found = worker
        .searcher
        .value_until(&mut worker.game, depth, behind, STRIKE, &mut bell);
    worker.game.undo();
    match found {
        Some(value) => Some(-value),
        None => None,
    }
}

/// Tries the child that a worker begins with, if another worker has the one that looks best. If no
/// bound is known, the child is left as soon as another worker raises the bound.
pub(crate) fn try_beside<G: Game, T>(
    work: &RootWork<'_, G, T>,
    child: &Child,
    seat: &mut BoundSeat,
    worker: &mut Worker<G>,
) -> TriedBeside
    requires may { MayTake G.history work.now child.now worker.old seat.old }
    ensures worker { HasPlayed G.history G.played worker.old worker.new
        (child_cost seat.old.me.0.root work.now.depth child.now.m seat.old.me.0.top) }
    ensures tried { HasTried work.now child.now seat.old seat.new result }
{
    let bound = look(work.word, seat);
    if bound > -1_000_090 {
        let found = close_child(work, child, bound, seat, worker);
        return TriedBeside::Closed { found };
    }
    let behind = work.depth - 1;
    let left = value_until_raised(work.word, child.m.again(), behind, bound, seat, worker);
    let Some(worth) = left else {
        return TriedBeside::Left;
    };
    let found = settle(work, child, bound, worth, seat);
    TriedBeside::Closed { found }
}
