//! The moves of a node in the order of the list, other than those that were tried before their
//! turn.

ghost use Rattle.std.specs.Prelude.{◌≡◌, ◌-◌, ◌||◌, nat_eq, Some};
ghost use Rattle.std.specs.Option.{option_eq};
ghost use Rattle.hive_model.specs.Histories.{position};
ghost use Rattle.search_core.specs.Moments.{moment_within, SpendsOnMoves, AnswersNode};
ghost use Rattle.search_core.specs.Nodes.{IsOpenNode};
ghost use Rattle.search_core.specs.Times.{WereTried};

use crate::choice::move_at;
use crate::entries::{Tried, better};
use crate::replies::reply_with;
use crate::told::next_candidate;
use crate::workspace::{Node, Workspace};
use hive_model::Game;
use io_edge::Clock;
use search_laws::Window;

/// The places of the moves that were tried before their turn, and of the best of them.
#[derive(Clone, Copy)]
pub(crate) struct Places {
    pub(crate) hint: Option<u32>,
    pub(crate) first: Option<u32>,
    pub(crate) second: Option<u32>,
    pub(crate) best: Option<u32>,
}

impl Places {
    /// Whether the move at the place was tried before its turn.
    fn hold(self, i: u32) -> bool
        ensures { result ≡ (option_eq nat_eq self.hint (Some i) || option_eq nat_eq self.first
            (Some i) || option_eq nat_eq self.second (Some i)) }
    {
        self.hint == Some(i) || self.first == Some(i) || self.second == Some(i)
    }
}

/// Searches the moves of a level other than those at the places, which are worth no more than
/// alpha. The one at `hint` was paid for separately. A move that is no candidate is passed over,
/// and saves a play like a move valued without a play.
#[cycle(search)]
pub(crate) fn search_rest<G: Game, C: Clock>(
    game: &mut G,
    level: u32,
    places: Places,
    node: Node,
    work: &mut Workspace,
    clock: &mut C,
) -> Option<Tried>
    requires node { IsOpenNode node level (G.history game.old) work.old.stack }
    requires tried { WereTried (position (G.history game.old)) (node.depth - 1) node.window.alpha
        places.hint places.first places.second }
    ensures spends { let at = moment_within G.history G.played C.readings C.last C.previous in
        SpendsOnMoves places.hint node
        (at game.old work.old clock.old) (at game.new work.new clock.new) }
    ensures answers { let at = moment_within G.history G.played C.readings C.last C.previous in
        AnswersNode node result
        (at game.old work.old clock.old) (at game.new work.new clock.new) }
{
    let count = work.stack.level_len(level);
    let mut alpha = node.window.alpha;
    let mut first = move_at(&work.stack, level, places.best);
    let mut candidate = next_candidate(game, node.depth, &work.stack, level, 0, alpha);
    for i in 0..count {
        if places.hold(i) {
            continue;
        }
        if i < candidate {
            work.credit.save();
            continue;
        }
        let m = work.stack.get(level, i);
        let child = Node {
            depth: node.depth - 1,
            window: Window {
                alpha,
                beta: node.window.beta,
            },
        };
        let found = reply_with(game, m, child, work, clock)?;
        if found >= child.window.beta {
            work.table.note_cut(game.plies(), work.stack.get(level, i));
            return Some(Tried {
                value: found,
                first: Some(work.stack.get(level, i)),
            });
        }
        first = better(found > alpha, work.stack.get(level, i), first);
        alpha = alpha.max(found);
        candidate = next_candidate(game, node.depth, &work.stack, level, i + 1, alpha);
    }
    Some(Tried {
        value: alpha,
        first,
    })
}
