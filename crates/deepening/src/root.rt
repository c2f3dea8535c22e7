//! The best move of a position at one depth.

ghost use Rattle.std.specs.Prelude.{◌≡◌, ◌+◌, ◌-◌, ◌≤◌, Some, None, IfSome, is_some, false};
ghost use Rattle.std.specs.Prelude.{◌≤ℤ◌, neg_ℤ, negsuc, slice_get, nat_eq, if◌then◌else◌};
ghost use Rattle.std.specs.Option.{option_eq};
ghost use Rattle.hive_model.specs.declared.places.Move.{Move as AnyMove};
ghost use Rattle.hive_model.specs.Legal.{is_over, moves};
ghost use Rattle.hive_model.specs.Games.{after};
ghost use Rattle.hive_model.specs.Minimax.{value, reply_value};
ghost use Rattle.hive_model.specs.Costs.{cost};
ghost use Rattle.hive_model.specs.Histories.{position};
ghost use Rattle.search_laws.specs.Found.{IsOpen};
ghost use Rattle.search_laws.specs.Nodes.{HasRoom, IsNode, CanReply};
ghost use Rattle.search_core.specs.Times.{behind, sum_but};
ghost use Rattle.search_core.specs.Ticks.{has_come};
ghost use Rattle.search_core.specs.Moments.{moment, Spends, Answers, AnswersReply};
ghost use Rattle.deepening.specs.Shares.{turns_share};
ghost use Rattle.deepening.specs.Tops.{IsTop, SearchesRoot};

use hive_model::{Best, Game, Move};
use io_edge::Clock;
use search_core::{Node, Tried, Window, Workspace, keep_found, reply, root_choice};

/// A number below the value of every move: the first bound at a root.
const FIRST_BOUND: i32 = -1_000_090;

/// A number above the value of every move.
const HIGHEST: i32 = 1_000_100;

/// What is known before the moves of a root are tried in turn: the place of the move tried first,
/// and its value. If none was, the value is a number below the value of every move.
#[derive(Clone, Copy)]
struct RootStart {
    hint: Option<u32>,
    worth: i32,
}

/// The first of the legal moves of greatest value with `depth` plies searched in all, and its
/// value, or none if the deadline came first. The move that the table names, or that looks best, is
/// tried before the others. The last reading of the clock was before the deadline. Results are
/// stored in the table.
pub(crate) fn best_reply<G: Game, C: Clock>(
    game: &mut G,
    depth: u32,
    work: &mut Workspace,
    clock: &mut C,
) -> Option<Best>
    requires goes_on { is_over (position (G.history game.old)) ≡ false }
    requires some { 1 ≤ depth }
    requires room { HasRoom depth (G.history game.old) work.old.stack }
    requires early { has_come work.old.ticker.deadline (C.last clock.old) ≡ false }
    ensures { let at = moment G.history G.played C.readings C.last C.previous in
        SearchesRoot depth result
        (at game.old work.old clock.old) (at game.new work.new clock.new) }
{
    let key = game.key();
    let level = work.stack.levels();
    game.list(&mut work.stack);
    let hint = root_choice(&key, game, depth, &work.table, &work.stack, level);
    let found = try_all(game, level, depth, hint, work, clock);
    work.stack.drop_level();
    let best = found?;
    let root = Node {
        depth,
        window: Window {
            alpha: FIRST_BOUND,
            beta: HIGHEST,
        },
    };
    let tried = Tried {
        value: best.value,
        first: Some(best.best.again()),
    };
    keep_found(&mut work.table, &key, root, tried);
    Some(best)
}

/// The same over the legal moves, which are on a level. The move at the place `hint` of the list,
/// if there is one, is tried before the others.
fn try_all<G: Game, C: Clock>(
    game: &mut G,
    level: u32,
    depth: u32,
    hint: Option<u32>,
    work: &mut Workspace,
    clock: &mut C,
) -> Option<Best>
    requires node { IsNode depth level (G.history game.old) work.old.stack }
    ensures { let at = moment G.history G.played C.readings C.last C.previous in
        SearchesRoot depth result
        (at game.old work.old clock.old) (at game.new work.new clock.new) }
{
    if let Some(first) = hint {
        if first < work.stack.level_len(level) {
            let m = work.stack.get(level, first);
            let child = Node {
                depth: depth - 1,
                window: Window {
                    alpha: FIRST_BOUND - 1,
                    beta: HIGHEST,
                },
            };
            let worth = reply(game, m, child, work, clock)?;
            let begun = RootStart { hint, worth };
            return try_in_turn(game, level, depth, begun, work, clock);
        }
    }
    let begun = RootStart {
        hint: None,
        worth: FIRST_BOUND + 1,
    };
    try_in_turn(game, level, depth, begun, work, clock)
}

/// The same in the order of the list, after one move was tried first or none. Each other move is
/// searched in the window from one less than the greatest value so far. So a move with the same
/// value can be told apart from a better one. The greatest value so far begins one below what is
/// known. So an earlier move of the same value as the one tried first is found too.
fn try_in_turn<G: Game, C: Clock>(
    game: &mut G,
    level: u32,
    depth: u32,
    begun: RootStart,
    work: &mut Workspace,
    clock: &mut C,
) -> Option<Best>
    requires node { IsNode depth level (G.history game.old) work.old.stack }
    requires low { negsuc 1000088 ≤ℤ begun.worth }
    requires high { begun.worth ≤ℤ value (position (G.history game.old)) depth }
    requires known { IfSome begun.hint (λ i. (m : AnyMove)
        → slice_get (moves (position (G.history game.old))) i ≡ Some m
        → reply_value (position (G.history game.old)) (depth - 1) m ≡ begun.worth) }
    ensures spends { let at = moment G.history G.played C.readings C.last C.previous in
        Spends (sum_but begun.hint 0 (behind (position (G.history game.old)) (depth - 1))
        (moves (position (G.history game.old))))
        (turns_share (position (G.history game.old)) depth)
        (at game.old work.old clock.old) (at game.new work.new clock.new) }
    ensures answers { let at = moment G.history G.played C.readings C.last C.previous in
        Answers (IsTop (position (G.history game.old)) depth) result
        (at game.old work.old clock.old) (at game.new work.new clock.new) }
{
    let count = work.stack.level_len(level);
    let mut best = work.stack.get(level, 0);
    let mut greatest = begun.worth - 1;
    for i in 0..count {
        let m = work.stack.get(level, i);
        let child = Node {
            depth: depth - 1,
            window: Window {
                alpha: greatest - 1,
                beta: HIGHEST,
            },
        };
        let found = worth_of(game, m.again(), known_at(begun, i), child, work, clock)?;
        if found > greatest {
            best = m;
            greatest = found;
        }
    }
    Some(Best {
        best,
        value: greatest,
    })
}

/// The value of the move at the place `i`, if it was tried first.
fn known_at(begun: RootStart, i: u32) -> Option<i32>
    ensures { result ≡ (if option_eq nat_eq begun.hint (Some i) then Some begun.worth else None) }
{
    if begun.hint == Some(i) {
        return Some(begun.worth);
    }
    None
}

/// The value of a move: the known one, or else the one that `reply` gives.
fn worth_of<G: Game, C: Clock>(
    game: &mut G,
    m: Move,
    known: Option<i32>,
    node: Node,
    work: &mut Workspace,
    clock: &mut C,
) -> Option<i32>
    requires window { IsOpen node.window }
    requires can { CanReply m node.depth (G.history game.old) work.old.stack }
    requires known { IfSome known (λ v. reply_value (position (G.history game.old)) node.depth m
        ≡ v) }
    ensures spends { let at = moment G.history G.played C.readings C.last C.previous in
        Spends (if is_some known then 0 else behind (position (G.history game.old)) node.depth m)
        (1 + cost (after (position (G.history game.old)) m) node.depth (neg_ℤ node.window.beta)
        (neg_ℤ node.window.alpha))
        (at game.old work.old clock.old) (at game.new work.new clock.new) }
    ensures answers { let at = moment G.history G.played C.readings C.last C.previous in
        AnswersReply m node result
        (at game.old work.old clock.old) (at game.new work.new clock.new) }
{
    if known.is_some() {
        return known;
    }
    reply(game, m, node, work, clock)
}
