//! The searchers of a session: that of one worker, or those of a team, in which each worker has its
//! own game. The session keeps either between its commands.

ghost use Rattle.std.specs.Prelude.{◌≡◌, ◌≤◌, false, [], length, None, Some, IfOk, IfSome};
ghost use Rattle.std.specs.Prelude.{OnOk};
ghost use Rattle.std.specs.List.{All};
ghost use Rattle.hive_model.specs.Positions.{opening};
ghost use Rattle.hive_model.specs.Games.{IsGame, replay};
ghost use Rattle.hive_model.specs.Legal.{is_over};
ghost use Rattle.hive_model.specs.Minimax.{best};
ghost use Rattle.root_share.specs.Answer.{IsGameOf};
ghost use Rattle.uhp_session.specs.Teams.{IsTeam, AreSearchersOf};

use deepening::Searcher;
use game_text::played;
use hive_model::{Game, GameType, Move};
use root_share::{Gate, Worker, best_shared};
use std::alloc::{AllocError, Global};
use std::thread::Threads;

/// How many workers search, 1 to 16, and how many entries each worker's table has.
#[derive(Clone, Copy)]
pub(crate) struct Team {
    pub(crate) workers: u32,
    pub(crate) entries: u32,
}

/// New searchers for a team, one for each of its workers.
fn searchers_of(alloc: Global, team: Team) -> Result<Vec<Searcher>, AllocError>
    requires { IsTeam team.workers team.entries }
    ensures { IfOk result (λ ns. AreSearchersOf team.workers ns.items) }
{
    let mut searchers = Vec::new(alloc);
    for _made in 0..team.workers {
        searchers.push(Searcher::prepare(alloc, team.entries, 64)?)?;
    }
    Ok(searchers)
}

/// The kept searchers of this team, or new ones. None are kept afterwards.
fn team_taken(
    kept: &mut Option<Vec<Searcher>>,
    alloc: Global,
    team: Team,
) -> Result<Vec<Searcher>, AllocError>
    requires team { IsTeam team.workers team.entries }
    requires kept { IfSome kept.old (λ ns. AreSearchersOf team.workers ns.items) }
    ensures taken { IfOk result (λ ns. AreSearchersOf team.workers ns.items) }
    ensures none { kept.new ≡ None }
{
    match kept.take() {
        Some(searchers) => Ok(searchers),
        None => searchers_of(alloc, team),
    }
}

/// A worker for each of the searchers, which are taken from the list, with a game of these moves.
fn workers_with<G: Game + Drop>(
    alloc: Global,
    game_type: GameType,
    moves: &[Move],
    searchers: &mut Vec<Searcher>,
    depth: u32,
) -> Result<Vec<Worker<G>>, AllocError>
    requires game { IsGame game_type moves.now }
    requires short { length moves.now ≤ 5000 }
    requires deep { depth ≤ 64 }
    requires prepared { All (λ n. n ≡ 64) searchers.old.items }
    ensures count { IfOk result (λ ws. length ws.items ≡ length searchers.old.items) }
    ensures games { IfOk result (λ ws. All (λ w. IsGameOf game_type moves.now depth
        (G.history w.game)) ws.items) }
    ensures prepared { IfOk result (λ ws. All (λ w. w.searcher ≡ 64) ws.items) }
    ensures none { OnOk result (searchers.new.items ≡ []) }
{
    let mut workers = Vec::new(alloc);
    while let Some(searcher) = searchers.pop() {
        let game = played(alloc, game_type, moves, depth)?;
        workers.push(Worker { game, searcher })?;
    }
    Ok(workers)
}

/// Gives the searchers of the workers back to the list that they were taken from.
fn give_back<G: Game + Drop>(
    workers: &mut Vec<Worker<G>>,
    searchers: &mut Vec<Searcher>,
) -> Result<(), AllocError>
    requires prepared { All (λ w. w.searcher ≡ 64) workers.old.items }
    requires none { searchers.old.items ≡ [] }
    ensures { OnOk result (AreSearchersOf (length workers.old.items) searchers.new.items) }
{
    while let Some(worker) = workers.pop() {
        searchers.push(worker.searcher)?;
    }
    Ok(())
}

/// The first legal move of greatest value in the game of this type and these moves, searched to
/// this depth in plies by a team. The team uses its kept searchers or new ones. They are kept
/// afterwards; if memory runs out, perhaps none is.
pub(crate) fn best_by<R: Threads + Sync, G: Game + Send + Drop, T: Gate + Sync>(
    rt: &R,
    alloc: Global,
    game_type: GameType,
    moves: &[Move],
    team: Team,
    kept: &mut Option<Vec<Searcher>>,
    depth: u32,
    gate: &T,
) -> Result<Move, AllocError>
    requires game { IsGame game_type moves.now }
    requires short { length moves.now ≤ 5000 }
    requires goes_on { is_over (replay (opening game_type) moves.now) ≡ false }
    requires team { IsTeam team.workers team.entries }
    requires kept { IfSome kept.old (λ ns. AreSearchersOf team.workers ns.items) }
    requires some { 1 ≤ depth }
    requires deep { depth ≤ 64 }
    ensures best { IfOk result
        (λ m. best (replay (opening game_type) moves.now) depth ≡ Some m) }
    ensures kept { IfSome kept.new (λ ns. AreSearchersOf team.workers ns.items) }
{
    let mut searchers = team_taken(kept, alloc, team)?;
    let mut workers: Vec<Worker<G>> = workers_with(alloc, game_type, moves, &mut searchers, depth)?;
    let found = best_shared(rt, alloc, &mut workers, depth, gate)?;
    give_back(&mut workers, &mut searchers)?;
    *kept = Some(searchers);
    Ok(found.best)
}

/// The kept searcher, or a new one with a table of this number of entries. None is kept afterwards.
pub(crate) fn taken(
    kept: &mut Option<Searcher>,
    alloc: Global,
    entries: u32,
) -> Result<Searcher, AllocError>
    requires prepared { IfSome kept.old (λ n. n ≡ 64) }
    requires some { 1 ≤ entries }
    requires few { entries ≤ 1048576 }
    ensures prepared { IfOk result (λ n. n ≡ 64) }
    ensures none { kept.new ≡ None }
{
    match kept.take() {
        Some(searcher) => Ok(searcher),
        None => Searcher::prepare(alloc, entries, 64),
    }
}
