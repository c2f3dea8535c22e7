//! The moves of a node: the order in which they are tried, and when the search of them ends.

ghost use Rattle.std.specs.Prelude.{◌-◌, ◌≤ℤ◌};
ghost use Rattle.hive_model.specs.Legal.{moves};
ghost use Rattle.hive_model.specs.Lists.{IsOn};
ghost use Rattle.hive_model.specs.Minimax.{IsInner, reply_value};
ghost use Rattle.hive_model.specs.Histories.{position};
ghost use Rattle.search_laws.specs.Found.{IsOpen};
ghost use Rattle.search_laws.specs.Nodes.{HasRoom};
ghost use Rattle.search_core.specs.Nodes.{IsOpenNode};
ghost use Rattle.search_core.specs.Moments.{moment_within, SpendsOnNode, SpendsOnOthers};
ghost use Rattle.search_core.specs.Moments.{AnswersNode};

use crate::choice::{best_told, legal_choice, place_of};
use crate::early::search_early;
use crate::entries::Tried;
use crate::replies::reply_with;
use crate::workspace::{Node, Workspace};
use hive_model::{Game, Move};
use io_edge::Clock;
use search_laws::Window;

/// Searches as `search` does, if the game goes on and a ply is left to search. There is no answer
/// if the deadline came first. If the table names a legal move, it is tried before the moves are
/// listed.
#[cycle(search)]
pub(crate) fn search_moves<G: Game, C: Clock>(
    game: &mut G,
    hint: Option<Move>,
    node: Node,
    work: &mut Workspace,
    clock: &mut C,
) -> Option<Tried>
    requires window { IsOpen node.window }
    requires inner { IsInner (position (G.history game.old)) node.depth }
    requires room { HasRoom node.depth (G.history game.old) work.old.stack }
    ensures spends { let at = moment_within G.history G.played C.readings C.last C.previous in
        SpendsOnNode node
        (at game.old work.old clock.old) (at game.new work.new clock.new) }
    ensures answers { let at = moment_within G.history G.played C.readings C.last C.previous in
        AnswersNode node result
        (at game.old work.old clock.old) (at game.new work.new clock.new) }
{
    match legal_choice(hint, game, &work.table) {
        Some(m) => search_from(game, &m, node, work, clock),
        None => search_listed(game, node, work, clock),
    }
}

/// Searches with this legal move tried before the others. They are listed only if it does not cut
/// off.
#[cycle(search)]
fn search_from<G: Game, C: Clock>(
    game: &mut G,
    m: &Move,
    node: Node,
    work: &mut Workspace,
    clock: &mut C,
) -> Option<Tried>
    requires window { IsOpen node.window }
    requires inner { IsInner (position (G.history game.old)) node.depth }
    requires room { HasRoom node.depth (G.history game.old) work.old.stack }
    requires legal { IsOn (moves (position (G.history game.old))) m.now }
    ensures spends { let at = moment_within G.history G.played C.readings C.last C.previous in
        SpendsOnNode node
        (at game.old work.old clock.old) (at game.new work.new clock.new) }
    ensures answers { let at = moment_within G.history G.played C.readings C.last C.previous in
        AnswersNode node result
        (at game.old work.old clock.old) (at game.new work.new clock.new) }
{
    let child = Node {
        depth: node.depth - 1,
        window: node.window,
    };
    let found = reply_with(game, m.again(), child, work, clock)?;
    if found >= node.window.beta {
        work.table.note_cut(game.plies(), m.again());
        return Some(Tried {
            value: found,
            first: Some(m.again()),
        });
    }
    let rest = Node {
        depth: node.depth,
        window: Window {
            alpha: node.window.alpha.max(found),
            beta: node.window.beta,
        },
    };
    search_others(game, m, rest, work, clock)
}

/// Searches the legal moves other than this one, which is worth no more than alpha.
#[cycle(search)]
fn search_others<G: Game, C: Clock>(
    game: &mut G,
    m: &Move,
    node: Node,
    work: &mut Workspace,
    clock: &mut C,
) -> Option<Tried>
    requires window { IsOpen node.window }
    requires inner { IsInner (position (G.history game.old)) node.depth }
    requires room { HasRoom node.depth (G.history game.old) work.old.stack }
    requires legal { IsOn (moves (position (G.history game.old))) m.now }
    requires worth { reply_value (position (G.history game.old)) (node.depth - 1) m.now
        ≤ℤ node.window.alpha }
    ensures spends { let at = moment_within G.history G.played C.readings C.last C.previous in
        SpendsOnOthers m.now node
        (at game.old work.old clock.old) (at game.new work.new clock.new) }
    ensures answers { let at = moment_within G.history G.played C.readings C.last C.previous in
        AnswersNode node result
        (at game.old work.old clock.old) (at game.new work.new clock.new) }
{
    let level = work.stack.levels();
    game.list(&mut work.stack);
    let place = place_of(&work.stack, level, m);
    let answer = search_early(game, level, place, node, work, clock);
    work.stack.drop_level();
    answer
}

/// Searches if the table names no legal move. Of the listed moves the one that looks best is tried
/// before the others.
#[cycle(search)]
fn search_listed<G: Game, C: Clock>(
    game: &mut G,
    node: Node,
    work: &mut Workspace,
    clock: &mut C,
) -> Option<Tried>
    requires window { IsOpen node.window }
    requires inner { IsInner (position (G.history game.old)) node.depth }
    requires room { HasRoom node.depth (G.history game.old) work.old.stack }
    ensures spends { let at = moment_within G.history G.played C.readings C.last C.previous in
        SpendsOnNode node
        (at game.old work.old clock.old) (at game.new work.new clock.new) }
    ensures answers { let at = moment_within G.history G.played C.readings C.last C.previous in
        AnswersNode node result
        (at game.old work.old clock.old) (at game.new work.new clock.new) }
{
    let level = work.stack.levels();
    game.list(&mut work.stack);
    let hint = best_told(game, node.depth, &work.stack, level);
    let answer = search_hinted(game, level, hint, node, work, clock);
    work.stack.drop_level();
    answer
}

/// Searches the legal moves on the level. The one at the place `hint`, if there is one, is tried
/// before the others.
#[cycle(search)]
fn search_hinted<G: Game, C: Clock>(
    game: &mut G,
    level: u32,
    hint: Option<u32>,
    node: Node,
    work: &mut Workspace,
    clock: &mut C,
) -> Option<Tried>
    requires { IsOpenNode node level (G.history game.old) work.old.stack }
    ensures spends { let at = moment_within G.history G.played C.readings C.last C.previous in
        SpendsOnNode node
        (at game.old work.old clock.old) (at game.new work.new clock.new) }
    ensures answers { let at = moment_within G.history G.played C.readings C.last C.previous in
        AnswersNode node result
        (at game.old work.old clock.old) (at game.new work.new clock.new) }
{
    let Some(first) = hint else {
        return search_early(game, level, None, node, work, clock);
    };
    if first >= work.stack.level_len(level) {
        return search_early(game, level, None, node, work, clock);
    }
    let m = work.stack.get(level, first);
    let child = Node {
        depth: node.depth - 1,
        window: node.window,
    };
    let found = reply_with(game, m, child, work, clock)?;
    if found >= node.window.beta {
        let cut = work.stack.get(level, first);
        work.table.note_cut(game.plies(), cut.again());
        return Some(Tried {
            value: found,
            first: Some(cut),
        });
    }
    let rest = Node {
        depth: node.depth,
        window: Window {
            alpha: node.window.alpha.max(found),
            beta: node.window.beta,
        },
    };
    search_early(game, level, hint, rest, work, clock)
}
