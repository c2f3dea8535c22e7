//! Moves that are tried before their turn and paid for from the credit.

ghost use Rattle.std.specs.Prelude.{◌≡◌, ◌-◌, ◌<◌, length};
ghost use Rattle.hive_model.specs.Histories.{position};
ghost use Rattle.search_core.specs.Moments.{moment_within, Spends, SpendsOnMoves};
ghost use Rattle.search_core.specs.Moments.{Answers, AnswersNode};
ghost use Rattle.search_core.specs.Nodes.{IsOpenNode};
ghost use Rattle.search_core.specs.Times.{IsAtMost, IsTriedEarly};

use crate::choice::{move_at, two_told};
use crate::entries::Tried;
use crate::replies::reply_with;
use crate::rest::{Places, search_rest};
use crate::workspace::{Node, Workspace};
use hive_model::{Game, MoveStack};
use io_edge::Clock;
use search_laws::Window;
use value_table::ValueTable;

/// The answer of an early try.
#[derive(Clone, Copy)]
struct Early {
    /// The worth of the move, or the lower end of the window if the worth was not found.
    value: i32,
    /// The place of the move, if its worth was found.
    place: Option<u32>,
}

/// Searches the moves of a level other than the one at the place `tried`, if there is one. That one
/// is worth no more than alpha. The two others that look best are tried first, as far as the credit
/// pays for them.
#[cycle(search)]
pub(crate) fn search_early<G: Game, C: Clock>(
    game: &mut G,
    level: u32,
    tried: Option<u32>,
    node: Node,
    work: &mut Workspace,
    clock: &mut C,
) -> Option<Tried>
    requires node { IsOpenNode node level (G.history game.old) work.old.stack }
    requires tried { IsAtMost (position (G.history game.old)) (node.depth - 1) node.window.alpha
        tried }
    ensures spends { let at = moment_within G.history G.played C.readings C.last C.previous in
        SpendsOnMoves tried node
        (at game.old work.old clock.old) (at game.new work.new clock.new) }
    ensures answers { let at = moment_within G.history G.played C.readings C.last C.previous in
        AnswersNode node result
        (at game.old work.old clock.old) (at game.new work.new clock.new) }
{
    let likely = two_told(game, node.depth, &work.credit, &work.stack, level, tried);
    let one = try_early(game, level, likely.first, node, work, clock)?;
    if one.value >= node.window.beta {
        let cut = cut_by(game, one, level, &work.stack, &mut work.table);
        return Some(cut);
    }
    let inner = Node {
        depth: node.depth,
        window: Window {
            alpha: node.window.alpha.max(one.value),
            beta: node.window.beta,
        },
    };
    let two = try_early(game, level, likely.second, inner, work, clock)?;
    if two.value >= inner.window.beta {
        let cut = cut_by(game, two, level, &work.stack, &mut work.table);
        return Some(cut);
    }
    let rest = Node {
        depth: node.depth,
        window: Window {
            alpha: inner.window.alpha.max(two.value),
            beta: inner.window.beta,
        },
    };
    let better = best_place(one.value > node.window.alpha, one.place, tried);
    let places = Places {
        hint: tried,
        first: one.place,
        second: two.place,
        best: best_place(two.value > inner.window.alpha, two.place, better),
    };
    search_rest(game, level, places, rest, work, clock)
}

/// Tries the move at the place of a level, if there is one, before its turn, as far as the credit
/// pays for it. There is no answer if the deadline came. There is none if the node itself is
/// searched within an early try that could not be paid for.
#[cycle(search)]
fn try_early<G: Game, C: Clock>(
    game: &mut G,
    level: u32,
    place: Option<u32>,
    node: Node,
    work: &mut Workspace,
    clock: &mut C,
) -> Option<Early>
    requires { IsOpenNode node level (G.history game.old) work.old.stack }
    ensures spends { let at = moment_within G.history G.played C.readings C.last C.previous in
        Spends 0 0
        (at game.old work.old clock.old) (at game.new work.new clock.new) }
    ensures answers { let at = moment_within G.history G.played C.readings C.last C.previous in
        Answers (λ e. IsTriedEarly (position (G.history game.old)) node.depth node.window e.value
        e.place) result
        (at game.old work.old clock.old) (at game.new work.new clock.new) }
{
    let untried = Early {
        value: node.window.alpha,
        place: None,
    };
    let Some(i) = place else {
        return Some(untried);
    };
    if i >= work.stack.level_len(level) {
        return Some(untried);
    }
    let m = work.stack.get(level, i);
    let child = Node {
        depth: node.depth - 1,
        window: node.window,
    };
    let within = work.credit.begin_early();
    let found = reply_with(game, m, child, work, clock);
    work.credit.end_early(within);
    if let Some(value) = found {
        return Some(Early {
            value,
            place: Some(i),
        });
    }
    if within {
        return None;
    }
    if work.credit.is_spent() {
        return Some(untried);
    }
    None
}

/// Stores the move of an early try that cut off.
fn cut_by<G: Game>(
    game: &G,
    early: Early,
    level: u32,
    stack: &MoveStack,
    table: &mut ValueTable,
) -> Tried
    requires { level < length stack.now.lists }
    ensures { result.value ≡ early.value }
{
    let first = move_at(stack, level, early.place);
    if let Some(m) = &first {
        table.note_cut(game.plies(), m.again());
    }
    Tried {
        value: early.value,
        first,
    }
}

/// The place of the best move: this one if it raises the greatest worth so far, otherwise the one
/// before.
fn best_place(raises: bool, place: Option<u32>, before: Option<u32>) -> Option<u32> {
    if raises { place } else { before }
}
