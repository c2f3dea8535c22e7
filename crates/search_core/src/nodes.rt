//! A node: whether nothing is left to search, whether the table answers, and otherwise its moves.

ghost use Rattle.hive_model.specs.Keys.{key};
ghost use Rattle.hive_model.specs.Minimax.{value};
ghost use Rattle.hive_model.specs.Histories.{position};
ghost use Rattle.search_laws.specs.Found.{IsFound};
ghost use Rattle.search_core.specs.Nodes.{HasOpenRoom};
ghost use Rattle.search_core.specs.Moments.{moment_within, SpendsOnNode, Answers};
ghost use Rattle.search_core.specs.Answers.{AnswersAsKept};
ghost use Rattle.value_table.specs.Kept.{kept};

use crate::choice::kept_hint;
use crate::entries::{answer_of, keep_found};
use crate::node_moves::search_moves;
use crate::workspace::{Node, Workspace};
use hive_model::Game;
use io_edge::Clock;
use search_laws::leaf_value;

/// Searches as `search` does, with the credit as it stands. There is also no answer if an early try
/// could not be paid for.
#[cycle(search)]
pub(crate) fn search_with<G: Game, C: Clock>(
    game: &mut G,
    node: Node,
    work: &mut Workspace,
    clock: &mut C,
) -> Option<i32>
    requires { HasOpenRoom node (G.history game.old) work.old.stack }
    ensures spends { let at = moment_within G.history G.played C.readings C.last C.previous in
        SpendsOnNode node
        (at game.old work.old clock.old) (at game.new work.new clock.new) }
    ensures answers { let at = moment_within G.history G.played C.readings C.last C.previous in
        Answers (IsFound (value (position (G.history game.old)) node.depth) node.window) result
        (at game.old work.old clock.old) (at game.new work.new clock.new) }
    ensures kept { AnswersAsKept node.depth (kept work.old.table (key
        (position (G.history game.old)))) result (G.played game.old) (G.played game.new) }
{
    work.table.lemma_holds();
    if let Some(worth) = leaf_value(game, node.depth) {
        return Some(worth);
    }
    let key = game.key();
    let entry = work.table.look(&key, node.depth);
    if let Some(known) = answer_of(&entry, node.window) {
        return Some(known);
    }
    let hint = kept_hint(&work.table, &key);
    let tried = search_moves(game, hint, node, work, clock)?;
    let value = tried.value;
    keep_found(&mut work.table, &key, node, tried);
    Some(value)
}
