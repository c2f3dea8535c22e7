//! A team of workers that count lists of legal moves together.

ghost use Rattle.std.specs.Prelude.{◌≡◌, ◌^◌, ◌<◌, ◌≤◌, IfOk, length};
ghost use Rattle.std.specs.List.{All, sum_by};
ghost use Rattle.hive_model.specs.Histories.{position};
ghost use Rattle.hive_model.specs.Minimax.{lines};
ghost use Rattle.count_share.specs.Shares.{Share as AnyShare};
ghost use Rattle.count_share.specs.Shares as shares;

use crate::dealing::dealt;
use crate::worker::CountWorker;
use hive_model::{Game, MoveStack};
use plain_search::{MoveCounts, count_lines};
use std::alloc::{AllocError, Global};
use std::marker::Model;
use std::thread::{Threads, for_each_mut};

/// The most workers of a team.
const MOST_WORKERS: usize = 16;

/// A team of 1 to 16 workers that count the lists of legal moves with which a game can go on.
/// Contracts see the position of the game, and the greatest number of plies that is counted.
///
/// One worker counts alone, and has no others beside it. Several workers have the legal moves dealt
/// out to them, and leave only lists of one or two moves to the first game.
#[derive(Drop)]
pub struct CountTeam<G: Game> {
    game: G,
    stack: MoveStack,
    counts: MoveCounts,
    plies: u32,
    workers: Vec<CountWorker<G>>,
}

impl<G: Game> Model for CountTeam<G> {
    ghost use Rattle.std.specs.Prelude.{◌≤◌};
    ghost use Rattle.hive_model.specs.Histories.{position};
    ghost use Rattle.count_share.specs.Shares.{Team, IsTeam};

    ghost Value = { Team };

    ghost view = { λ t. record { root = position (G.history t.game); plies = t.plies } };

    ghost invariant = { λ t. IsTeam (G.history t.game) t.stack.free t.plies t.workers.items };
}

/// How many positions keep the count of their moves in a count of so many plies. In a young game,
/// or for few plies, keeping them costs more than it saves.
pub fn room_for<G: Game>(game: &G, plies: u32) -> u32 {
    if plies >= 4 && game.plies() >= 12 {
        131_072
    } else {
        0
    }
}

/// The workers beside the first game: none if there is one worker.
fn helpers<G: Game + Drop>(
    alloc: Global,
    game: &mut G,
    plies: u32,
    room: u32,
    workers: u32,
) -> Result<Vec<CountWorker<G>>, AllocError>
    requires some { 1 ≤ plies }
    requires few { plies ≤ 8 }
    requires short { length (G.history game.old).made ≤ 5000 }
    requires spare { plies ≤ (G.history game.old).spare }
    ensures dealt { IfOk result (λ ws. shares.AreHelpers (position (G.history game.old)) plies
        ws.items) }
    ensures game { G.history game.new ≡ G.history game.old }
{
    if workers <= 1 {
        return Ok(Vec::new(alloc));
    }
    dealt(alloc, game, plies, room, workers)
}

/// Has each worker count its share, in a thread of its own if one can be had.
fn count_all<R: Threads + Sync, G: Game + Send + Drop>(
    rt: &R,
    plies: u32,
    workers: &mut [CountWorker<G>],
)
    requires { All (shares.CanCount plies) workers.old }
    ensures { shares.HaveCounted plies workers.old workers.new }
{
    for_each_mut(
        rt,
        workers,
        MOST_WORKERS,
        &|_place: usize, worker: &mut CountWorker<G>|
            requires { shares.CanCount plies worker.now }
            ensures { shares.HasCounted plies worker.entry.now worker.exit.now }
        { worker.count(plies) },
    );
}

/// The sum of what the workers counted last.
fn total_of<G: Game + Drop>(workers: &[CountWorker<G>]) -> u128
    requires { sum_by (λ (s : AnyShare). s.total) workers.now < 2 ^ 128 }
    ensures { result ≡ sum_by (λ (s : AnyShare). s.total) workers.now }
{
    let mut total = 0;
    for i in 0..workers.len() {
        total += workers[i].total();
    }
    total
}

/// Counts the lists of so many legal moves that begin with a move of the workers' classes.
fn lines_shared<R: Threads + Sync, G: Game + Send + Drop>(
    rt: &R,
    plies: u32,
    workers: &mut [CountWorker<G>],
) -> u128
    requires can { All (shares.CanCount plies) workers.old }
    requires fits { shares.lines_counted plies workers.old < 2 ^ 128 }
    ensures counted { shares.HaveCounted plies workers.old workers.new }
    ensures sum { result ≡ shares.lines_counted plies workers.old }
{
    count_all(rt, plies, workers);
    total_of(workers)
}

impl<G: Game + Send + Drop> CountTeam<G> {
    /// A team of so many workers at the position of this game, for counts of up to 1 to 8 plies.
    /// All memory is taken here. The only error is that memory runs out.
    pub fn new(
        alloc: Global,
        mut game: G,
        plies: u32,
        workers: u32,
    ) -> Result<CountTeam<G>, AllocError>
        requires some { 1 ≤ plies }
        requires few { plies ≤ 8 }
        requires short { length (G.history game).made ≤ 5000 }
        requires spare { plies ≤ (G.history game).spare }
        ensures root { IfOk result (λ t. t.root ≡ position (G.history game)) }
        ensures plies { IfOk result (λ t. t.plies ≡ plies) }
    {
        let room = room_for(&game, plies);
        let stack = MoveStack::new(alloc, plies)?;
        let workers = helpers(alloc, &mut game, plies, room, workers)?;
        let own_room = if workers.is_empty() { room } else { 0 };
        let counts = MoveCounts::new(alloc, own_room)?;
        Ok(CountTeam {
            game,
            stack,
            counts,
            plies,
            workers,
        })
    }

    /// The number of lists of so many legal moves with which the game can go on. It does not depend
    /// on the workers, nor on how their threads run.
    pub fn lines<R: Threads + Sync>(&mut self, rt: &R, plies: u32) -> u128
        requires some { 1 ≤ plies }
        requires few { plies ≤ self.old.plies }
        ensures lines { result ≡ lines self.old.root plies }
        ensures same { self.new ≡ self.old }
    {
        self.game.lemma_sound();
        if plies <= 2 || self.workers.is_empty() {
            return count_lines(&mut self.game, plies, &mut self.stack, &mut self.counts);
        }
        lines_shared(rt, plies, self.workers.as_mut_slice())
    }
}
