//! Writing the certificate of a game's best move.

ghost use Rattle.std.specs.Prelude.{◌≡◌, ◌≤◌, Err, IfOk};
ghost use Rattle.io_edge.specs.Outside.{HasCause};
ghost use Rattle.strategy_make.specs.Making.{Makes, MayMake};
ghost use Rattle.strategy_make.specs.Laws.{IsBestAnswer};

use crate::fault::MakeFault;
use crate::head::head_of;
use crate::roots::write_least;
use deepening::Searcher;
use hive_model::{Best, Game, MoveStack};
use io_edge::{Sink, write_all};
use std::alloc::Global;

/// Writes the certificate of the game's best move at a depth, from 1 to the depth that the searcher
/// is prepared for. It has the five lines of the head, then the least indices, one a line. The
/// answer is that move and its value. The game is not over, has at most 5,000 plies, and has room
/// for `depth` more. Game and searcher are as before.
///
/// # Errors
///
/// A failed write: an initial part of that certificate was written. Out of memory: nothing was
/// written.
pub fn make<G: Game + Drop, K: Sink>(
    alloc: Global,
    searcher: &mut Searcher,
    game: &mut G,
    depth: u32,
    sink: &mut K,
) -> Result<Best, MakeFault>
    requires game { MayMake (G.history game.old) depth }
    requires prepared { depth ≤ searcher.old }
    ensures best { IfOk result (λ b. IsBestAnswer (G.history game.old) depth b) }
    ensures written { Makes result (G.history game.old) depth (K.written sink.old)
        (K.written sink.new) }
    ensures cause { HasCause (result ≡ Err MakeFault.WriteFault)
        (K.write_faults sink.old) (K.write_faults sink.new) }
    ensures game { G.history game.new ≡ G.history game.old }
    ensures searcher { searcher.new ≡ searcher.old }
{
    let best = searcher.best_at(game, depth);
    let Ok(head) = head_of(alloc, game, depth, &best) else {
        return Err(MakeFault::Memory);
    };
    let Ok(mut stack) = MoveStack::new(alloc, depth) else {
        return Err(MakeFault::Memory);
    };
    if !write_all(sink, head.items()) {
        return Err(MakeFault::WriteFault);
    }
    if !write_least(searcher, game, depth, &best, &mut stack, sink) {
        return Err(MakeFault::WriteFault);
    }
    Ok(best)
}
