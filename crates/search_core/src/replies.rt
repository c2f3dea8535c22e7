//! What a move is worth, by a search of the position after it.

ghost use Rattle.search_core.specs.Moments.{moment, moment_within, SpendsOnReply, AnswersReply};
ghost use Rattle.search_core.specs.Nodes.{MayReply};

use crate::nodes::search_with;
use crate::play_credit::PlayCredit;
use crate::told::told_reply;
use crate::workspace::{Node, Workspace};
use hive_model::{Game, Move};
use io_edge::Clock;
use search_laws::Window;

/// Searches, as `search` does, for what a legal move is worth to the side that makes it, with so
/// many plies of best play after it. There is no answer if the deadline came first. With no ply
/// after it, the move is not made if the game values it without a play.
pub fn reply<G: Game, C: Clock>(
    game: &mut G,
    m: Move,
    node: Node,
    work: &mut Workspace,
    clock: &mut C,
) -> Option<i32>
    requires { MayReply m node (G.history game.old) work.old.stack }
    ensures spends { let at = moment G.history G.played C.readings C.last C.previous in
        SpendsOnReply m node
        (at game.old work.old clock.old) (at game.new work.new clock.new) }
    ensures answers { let at = moment G.history G.played C.readings C.last C.previous in
        AnswersReply m node result
        (at game.old work.old clock.old) (at game.new work.new clock.new) }
{
    work.credit = PlayCredit::empty();
    reply_with(game, m, node, work, clock)
}

/// Searches as `reply` does, with the credit as it stands. A move valued without a play saves a play.
/// There is also no answer if an early try could not be paid for.
#[cycle(search)]
pub(crate) fn reply_with<G: Game, C: Clock>(
    game: &mut G,
    m: Move,
    node: Node,
    work: &mut Workspace,
    clock: &mut C,
) -> Option<i32>
    requires { MayReply m node (G.history game.old) work.old.stack }
    ensures spends { let at = moment_within G.history G.played C.readings C.last C.previous in
        SpendsOnReply m node
        (at game.old work.old clock.old) (at game.new work.new clock.new) }
    ensures answers { let at = moment_within G.history G.played C.readings C.last C.previous in
        AnswersReply m node result
        (at game.old work.old clock.old) (at game.new work.new clock.new) }
{
    let told = told_reply(game, m.again(), node);
    if told.is_some() {
        work.credit.save();
        return told;
    }
    play_reply(game, m, node, work, clock)
}

/// Searches as `reply_with` does, and the move is made.
#[cycle(search)]
fn play_reply<G: Game, C: Clock>(
    game: &mut G,
    m: Move,
    node: Node,
    work: &mut Workspace,
    clock: &mut C,
) -> Option<i32>
    requires { MayReply m node (G.history game.old) work.old.stack }
    ensures spends { let at = moment_within G.history G.played C.readings C.last C.previous in
        SpendsOnReply m node
        (at game.old work.old clock.old) (at game.new work.new clock.new) }
    ensures answers { let at = moment_within G.history G.played C.readings C.last C.previous in
        AnswersReply m node result
        (at game.old work.old clock.old) (at game.new work.new clock.new) }
{
    if !work.credit.pay() {
        return None;
    }
    game.play(m);
    if work.ticker.tick(clock) {
        game.undo();
        return None;
    }
    let behind = Window {
        alpha: -node.window.beta,
        beta: -node.window.alpha,
    };
    let turned = Node {
        depth: node.depth,
        window: behind,
    };
    let found = search_with(game, turned, work, clock);
    game.undo();
    match found {
        Some(value) => Some(-value),
        None => None,
    }
}
