//! The command that first reads the game of the input, and plays the match from it.
ghost use Rattle.std.specs.Prelude.{◌≡◌, ◌<◌, ◌≤◌, List, length, map, string_bytes};
ghost use Rattle.io_edge.specs.Outside.{HasCause};
ghost use Rattle.hive_model.specs.declared.best.Timed.{Timed};
ghost use Rattle.command_runs.specs.World.{sides, times, world};
ghost use Rattle.match_core.specs.Keeps.{IsSetup};
ghost use Rattle.match_command.specs.Ends.{EndsRun};
ghost use Rattle.match_command.specs.Reads.{ReadMatchRun, typed};

use crate::playing::play_match_from;
use command_runs::{Status, read_one_game, tell_none};
use hive_model::{Game, GameType};
use io_edge::{Clock, Sink, Source, Spawner};
use match_core::Setup;
use std::alloc::Global;

/// The setup for games of this type.
fn typed(setup: Setup, game_type: GameType) -> Setup
    ensures { result ≡ typed setup game_type }
{
    Setup { game_type, ..setup }
}

/// Reads the one game of the input, and plays a match of two programs from it, as `play_match_from`
/// does. The setup gets the type of this game in place of its own.
///
/// The input has to be one line, a game string of a game that is not over. It is read to its end
/// before a program is started. If it is something else, one line that begins with `bad` says why,
/// and the status is `BadInput`. If a read fails (`ReadFault`), the input is full (`InputFull`) or
/// memory runs out (`Memory`), the run ends with nothing written. In each of these cases no program
/// is started, and the clock is not read. The same holds if that line could not be written
/// (`WriteFault`).
pub fn play_read_match<S: Source, P: Spawner, K: Sink, C: Clock, G: Game + Drop>(
    alloc: Global,
    white: &[String],
    black: &[String],
    setup: Setup,
    input: &mut S,
    output: &mut K,
    clock: &mut C,
    spawner: &mut P,
) -> Status
    requires setup { IsSetup setup }
    requires white_some { 0 < length white.now }
    requires black_some { 0 < length black.now }
    ensures run { (timed : List Timed) → ReadMatchRun setup
        (map string_bytes white.now) (map string_bytes black.now) result
        (world (sides (S.rest input.old) (K.written output.old))
        (times (C.last clock.old) (C.readings clock.old) timed) (P.engines spawner.old))
        (world (sides (S.rest input.new) (K.written output.new))
        (times (C.last clock.new) (C.readings clock.new) timed) (P.engines spawner.new)) }
    ensures ends { EndsRun result (K.write_faults output.old) (K.write_faults output.new)
        (P.engines spawner.old) (P.engines spawner.new) }
    ensures reads { HasCause (result ≡ Status.ReadFault) (S.read_faults input.old)
        (S.read_faults input.new) }
    ensures later { C.last clock.old ≤ C.last clock.new }
{
    match read_one_game::<S, G>(alloc, input, 0) {
        Ok(game) => {
            let setup = typed(setup, game.game_type());
            play_match_from(alloc, white, black, setup, game, output, clock, spawner)
        }
        Err(none) => tell_none(none, output),
    }
}
