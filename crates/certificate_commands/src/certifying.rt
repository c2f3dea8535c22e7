//! The best move of a game, with a certificate.

ghost use Rattle.std.specs.Prelude.{◌≡◌, ◌≤◌};
ghost use Rattle.io_edge.specs.Outside.{HasCause};
ghost use Rattle.hive_model.specs.Histories.{position};
ghost use Rattle.hive_model.specs.Minimax.{best};
ghost use Rattle.command_runs.specs.Answered.{WritesAnswer};
ghost use Rattle.command_runs.specs.Asking.{IsUnderWay};
ghost use Rattle.command_runs.specs.Runs.{RunsAs, side_of};
ghost use Rattle.strategy_make.specs.Making.{certificate_of};
ghost use Rattle.certificate_commands.specs.Certifying.{CertifyRun};

use command_runs::{Status, read_one_game, tell_none};
use deepening::Searcher;
use hive_model::Game;
use io_edge::{Sink, Source};
use std::alloc::Global;
use strategy_make::{MakeFault, make};

/// The number of positions in the table of a search.
const TABLE_ENTRIES: u32 = 65_536;

/// Writes the certificate of a game.
fn tell_certificate<K: Sink, G: Game + Drop>(
    alloc: Global,
    mut game: G,
    depth: u32,
    output: &mut K,
) -> Status
    requires under_way { IsUnderWay (G.history game) }
    requires some { 1 ≤ depth }
    requires deep { depth ≤ 64 }
    requires spare { depth ≤ (G.history game).spare }
    ensures told { WritesAnswer
        (certificate_of (G.history game) depth (best (position (G.history game)) depth))
        result (K.written output.old) (K.written output.new) }
    ensures cause { HasCause (result ≡ Status.WriteFault)
        (K.write_faults output.old) (K.write_faults output.new) }
{
    let Ok(mut searcher) = Searcher::prepare(alloc, TABLE_ENTRIES, depth) else {
        return Status::Memory;
    };
    match make(alloc, &mut searcher, &mut game, depth, output) {
        Ok(_) => Status::Done,
        Err(MakeFault::WriteFault) => Status::WriteFault,
        Err(MakeFault::Memory) => Status::Memory,
    }
}

/// Reads the one game of the input, and writes the certificate of its best move at a depth, from 1
/// to 64. Its lines are `hive-certificate 1`, the game in its written form, `depth N`, `move` and
/// the move's text, and `value` and the move's value. Then come the least indices that show both,
/// each on a line of its own.
///
/// It is then `Done`. If the input is not one game that is not over, one line that begins with
/// `bad` says why, and it is `BadInput`. If a read fails, the input is full or memory runs out, the
/// run ends with nothing written.
pub fn certify<S: Source, K: Sink, G: Game + Drop>(
    alloc: Global,
    depth: u32,
    input: &mut S,
    output: &mut K,
) -> Status
    requires some { 1 ≤ depth }
    requires deep { depth ≤ 64 }
    ensures { RunsAs (CertifyRun depth) result
        (side_of S.rest S.read_faults input.old) (side_of K.written K.write_faults output.old)
        (side_of S.rest S.read_faults input.new) (side_of K.written K.write_faults output.new) }
{
    let game = match read_one_game::<S, G>(alloc, input, depth) {
        Ok(game) => game,
        Err(none) => return tell_none(none, output),
    };
    tell_certificate(alloc, game, depth, output)
}
