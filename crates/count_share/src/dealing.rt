//! Workers, and the classes of moves dealt out to them.

ghost use Rattle.std.specs.Prelude.{◌≡◌, ◌+◌, ◌<◌, ◌≤◌, IfOk, OnOk, length};
ghost use Rattle.std.specs.List.{All};
ghost use Rattle.hive_model.specs.Positions.{Position as AnyPosition};
ghost use Rattle.hive_model.specs.Histories.{position};
ghost use Rattle.count_share.specs.Classes.{AreClasses};
ghost use Rattle.count_share.specs.Shares.{AreDealt, AreIdle};

use crate::classes::{MoveClass, classes_of};
use crate::copies::same_game;
use crate::worker::CountWorker;
use hive_model::Game;
use std::alloc::{AllocError, Global};

/// So many workers without a class, each with a game at the position of this one.
fn idle_workers<G: Game + Drop>(
    alloc: Global,
    game: &G,
    plies: u32,
    room: u32,
    count: u32,
) -> Result<Vec<CountWorker<G>>, AllocError>
    requires some { 1 ≤ plies }
    requires few { plies ≤ 8 }
    requires short { length (G.history game.now).made ≤ 5000 }
    ensures idle { IfOk result (λ ws. AreIdle (position (G.history game.now)) plies ws.items) }
    ensures count { IfOk result (λ ws. length ws.items ≡ count) }
{
    let mut workers = Vec::new(alloc);
    for _made in 0..count {
        let own = same_game(alloc, game, plies)?;
        workers.push(CountWorker::new(alloc, own, plies, room)?)?;
    }
    Ok(workers)
}

/// Deals the classes out to the workers in turn.
fn deal<G: Game + Drop>(
    classes: &[MoveClass],
    plies: u32,
    workers: &mut [CountWorker<G>],
) -> Result<(), AllocError>
    requires some { 1 ≤ length workers.old }
    ensures { (p : AnyPosition) → AreClasses p classes.now → AreIdle p plies workers.old
        → OnOk result (AreDealt p plies workers.new) }
{
    for i in 0..classes.len() {
        let next = i % workers.len();
        workers[next].take(classes[i])?;
    }
    Ok(())
}

/// So many workers to whom the legal moves of the game were dealt out, for counts of up to this
/// many plies. The game does not change. The only error is that memory runs out.
pub(crate) fn dealt<G: Game + Drop>(
    alloc: Global,
    game: &mut G,
    plies: u32,
    room: u32,
    count: u32,
) -> Result<Vec<CountWorker<G>>, AllocError>
    requires some { 1 ≤ plies }
    requires few { plies ≤ 8 }
    requires short { length (G.history game.old).made ≤ 5000 }
    requires spare { plies ≤ (G.history game.old).spare }
    requires workers { 1 ≤ count }
    ensures dealt { IfOk result (λ ws. AreDealt (position (G.history game.old)) plies ws.items) }
    ensures game { G.history game.new ≡ G.history game.old }
{
    let classes = classes_of(alloc, game)?;
    let mut workers = idle_workers(alloc, game, plies, room, count)?;
    deal(classes.as_slice(), plies, workers.as_mut_slice())?;
    Ok(workers)
}
