//! The call that runs all workers at a root.

ghost use Rattle.std.specs.Prelude.{◌≡◌, ◌<◌, ◌≤◌, [], ◌∷◌, length, Some, IfOk, OnErr};
ghost use Rattle.hive_model.specs.Legal.{moves};
ghost use Rattle.hive_model.specs.Minimax.{value, best};
ghost use Rattle.root_share.specs.Answer.{PlaysWithin};
ghost use Rattle.root_share.specs.Workers.{CanSearch, AreAsBefore, plays_of, root_at};

use crate::gate::Gate;
use crate::part::{Team, run_parts};
use crate::word::begin;
use crate::work::RootWork;
use crate::worker::Worker;
use hive_model::{Best, Game, MoveStack};
use std::alloc::{AllocError, Global};
use std::thread::Threads;

/// Lists the moves of the root, with the first worker's game.
fn list_root<G: Game>(workers: &mut [Worker<G>], root: &mut MoveStack)
    requires some { 0 < length workers.old }
    requires empty { root.old.lists ≡ [] }
    requires free { 1 ≤ root.old.free }
    ensures listed { root.new.lists ≡ moves (root_at G.history workers.old) ∷ [] }
    ensures kept { AreAsBefore G.history workers.old workers.new }
    ensures played { plays_of G.played workers.new ≡ plays_of G.played workers.old }
{
    workers[0].game.list(root);
}

/// The best move of a root and its value, at a depth from 1 to 64. It is found by 1 to 16 workers,
/// each with its own game at the root.
///
/// Worker w of W searches the moves whose index on the root's list leaves the remainder w when
/// divided by W. It plays at most its share. The workers run concurrently if threads can be had,
/// and under any schedule the answer is that of a single worker. A worker calls the gate before
/// each move. Games and searchers do not change.
///
/// The only error is that memory runs out. It comes before the first move is tried, so that no game
/// has played a move.
pub fn best_shared<R: Threads + Sync, G: Game + Send, T: Gate + Sync>(
    rt: &R,
    alloc: Global,
    workers: &mut [Worker<G>],
    depth: u32,
    gate: &T,
) -> Result<Best, AllocError>
    requires depth { 1 ≤ depth }
    requires deep { depth ≤ 64 }
    requires workers { CanSearch G.history depth workers.old }
    ensures first { IfOk result (λ b. best (root_at G.history workers.old) depth ≡ Some b.best) }
    ensures worth { IfOk result (λ b. b.value ≡ value (root_at G.history workers.old) depth) }
    ensures kept { AreAsBefore G.history workers.old workers.new }
    ensures played { PlaysWithin (root_at G.history workers.old) depth (length workers.old) 0
        (plays_of G.played workers.old) (plays_of G.played workers.new) }
    ensures unplayed { OnErr result
        (plays_of G.played workers.new ≡ plays_of G.played workers.old) }
{
    let mut root = MoveStack::new(alloc, 1)?;
    list_root(workers, &mut root);
    let (board, mut seat) = begin(alloc, &workers[0].game, depth)?;
    let team = Team {
        rt,
        work: RootWork {
            word: &board.shared,
            gate,
            root: &root,
            depth,
            parts: workers.len() as u32,
        },
    };
    let found = run_parts(&team, 0, &mut seat, workers);
    let Some(best) = found else { unreachable!() };
    Ok(Best {
        best: root.get(0, best.child),
        value: best.value,
    })
}
