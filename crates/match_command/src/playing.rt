//! The command: starts both programs, plays the match, and writes its two lines.
ghost use Rattle.std.specs.Prelude.{◌≡◌, ◌<◌, ◌≤◌, List, length, map, string_bytes, IfOk};
ghost use Rattle.io_edge.specs.Outside.{Told};
ghost use Rattle.hive_model.specs.declared.best.Timed.{Timed};
ghost use Rattle.command_runs.specs.World.{sides, times, world};
ghost use Rattle.match_core.specs.Setups.{setup_from, setup_plain};
ghost use Rattle.match_core.specs.Keeps.{IsSetup};
ghost use Rattle.match_core.specs.MatchState.{MatchState};
ghost use Rattle.match_runner.specs.Wires.{wire, IsFresh};
ghost use Rattle.match_command.specs.Texts.{match_text};
ghost use Rattle.match_command.specs.Match.{MatchRun, MatchStarts, StartsNone};
ghost use Rattle.match_command.specs.Ends.{EndsRun};
ghost use Rattle.match_command.specs.Wires.{ClosesTwo, PlayedOver};

use crate::engines::{close_both, start_both};
use crate::texts::tell_match;
use command_runs::{Status, end_with};
use hive_model::{Game, ReplyText};
use io_edge::{Clock, Sink, Spawner, StartFault};
use match_core::{Referee, Setup};
use match_runner::run_match_from;
use std::alloc::{AllocError, Global};

/// Plays a match of two started programs from a game under way, and closes both, white's first. It
/// answers the two lines that report the match.
fn play_and_close<P: Spawner, C: Clock, G: Game + Drop>(
    alloc: Global,
    mut white: P::Engine,
    mut black: P::Engine,
    setup: Setup,
    game: G,
    clock: &mut C,
    spawner: &mut P,
) -> Result<ReplyText, AllocError>
    requires setup { IsSetup setup }
    requires kind { (G.history game).game_type ≡ setup.game_type }
    requires white_fresh { IsFresh (P.Engine.read_faults white) (P.Engine.write_faults white) }
    requires black_fresh { IsFresh (P.Engine.read_faults black) (P.Engine.write_faults black) }
    ensures played { (timed : List Timed) → IfOk result (λ text. (t : MatchState)
        × (text ≡ match_text setup t)
        × PlayedOver (setup_from setup (G.history game).made) t
        (wire (P.Engine.rest white) (P.Engine.written white)
        (P.Engine.read_faults white) (P.Engine.write_faults white))
        (wire (P.Engine.rest black) (P.Engine.written black)
        (P.Engine.read_faults black) (P.Engine.write_faults black))
        (times (C.last clock.old) (C.readings clock.old) timed)
        (times (C.last clock.new) (C.readings clock.new) timed)
        (P.engines spawner.old) (P.engines spawner.new)) }
    ensures closes { (w : Told) × (b : Told)
        × ClosesTwo (P.engines spawner.old).sent (P.engines spawner.new).sent w b }
    ensures none_started { StartsNone (P.engines spawner.old) (P.engines spawner.new) }
    ensures later { C.last clock.old ≤ C.last clock.new }
{
    let referee: Result<Referee<G>, AllocError> = run_match_from(
        alloc, &mut white, &mut black, clock, setup, game,
    );
    close_both(white, black, spawner);
    match referee {
        Ok(referee) => tell_match(alloc, setup, &referee),
        Err(fault) => Err(fault),
    }
}

/// Plays a match of two programs from the opening, and reports it, as `play_match_from` does from a
/// game under way. `Memory` may also say that there was no memory for the opening: then no program
/// was started.
pub fn play_match<P: Spawner, K: Sink, C: Clock, G: Game + Drop>(
    alloc: Global,
    white: &[String],
    black: &[String],
    setup: Setup,
    output: &mut K,
    clock: &mut C,
    spawner: &mut P,
) -> Status
    requires setup { IsSetup setup }
    requires white_some { 0 < length white.now }
    requires black_some { 0 < length black.now }
    ensures run { (rest : Told) (timed : List Timed) → MatchRun (setup_plain setup) result
        (world (sides rest (K.written output.old))
        (times (C.last clock.old) (C.readings clock.old) timed) (P.engines spawner.old))
        (world (sides rest (K.written output.new))
        (times (C.last clock.new) (C.readings clock.new) timed) (P.engines spawner.new)) }
    ensures ends { EndsRun result (K.write_faults output.old) (K.write_faults output.new)
        (P.engines spawner.old) (P.engines spawner.new) }
    ensures started { MatchStarts result
        (map string_bytes white.now) (map string_bytes black.now)
        (P.engines spawner.old) (P.engines spawner.new) }
    ensures later { C.last clock.old ≤ C.last clock.new }
{
    let Ok(game) = G::opening(alloc, setup.game_type) else {
        return Status::Memory;
    };
    play_match_from(alloc, white, black, setup, game, output, clock, spawner)
}

/// Plays a match of two programs from a game under way, whose type is that of the setup, and
/// reports it.
///
/// White's program is started, then black's. Each is the one that the first word names, with the
/// other words as its arguments. Both are sent the game, and the match is run to its verdict. The
/// verdict comes at once if the game is over or has reached the limit of plies. White's engine is
/// closed, then black's. Two lines are written: the game string of the moves given and played, and
/// the verdict. Each engine that was started is closed before the call returns, whatever happens.
///
/// A side forfeits for a late answer only at its turn, if it was asked with a time and answered
/// after that time and the margin. If the starter's programs are observable and it counted no
/// failure of one, moves played and bytes sent are those of the match up to that reply.
///
/// A setup has a limit of 1 to 1,000 plies. It has a depth from 1 to 64, or a time of whole seconds
/// below 100 hours and a margin of at most an hour. Each list of words has at least one.
///
/// `Done` says that both lines were written. `WriteFault` says that a write failed: only an initial
/// part of the two lines was written, and not all. `SpawnFault` says that a program did not start,
/// and `Memory` that memory ran out: nothing was written. No other status is answered.
///
/// If the starts of the starter are observable, a match that was played adds white's words and then
/// black's. After `SpawnFault` nothing was added, or only white's words. After `Memory` any of the
/// three may be so.
pub fn play_match_from<P: Spawner, K: Sink, C: Clock, G: Game + Drop>(
    alloc: Global,
    white: &[String],
    black: &[String],
    setup: Setup,
    game: G,
    output: &mut K,
    clock: &mut C,
    spawner: &mut P,
) -> Status
    requires setup { IsSetup setup }
    requires kind { (G.history game).game_type ≡ setup.game_type }
    requires white_some { 0 < length white.now }
    requires black_some { 0 < length black.now }
    ensures run { (rest : Told) (timed : List Timed) →
        MatchRun (setup_from setup (G.history game).made) result
        (world (sides rest (K.written output.old))
        (times (C.last clock.old) (C.readings clock.old) timed) (P.engines spawner.old))
        (world (sides rest (K.written output.new))
        (times (C.last clock.new) (C.readings clock.new) timed) (P.engines spawner.new)) }
    ensures ends { EndsRun result (K.write_faults output.old) (K.write_faults output.new)
        (P.engines spawner.old) (P.engines spawner.new) }
    ensures started { MatchStarts result
        (map string_bytes white.now) (map string_bytes black.now)
        (P.engines spawner.old) (P.engines spawner.new) }
    ensures later { C.last clock.old ≤ C.last clock.new }
{
    match start_both(white, black, spawner) {
        Ok((white, black)) => {
            let Ok(text) = play_and_close::<P, C, G>(
                alloc, white, black, setup, game, clock, spawner,
            ) else {
                return Status::Memory;
            };
            end_with(text.items(), Status::Done, output)
        }
        Err(StartFault::Failed) => Status::SpawnFault,
        Err(StartFault::Memory) => Status::Memory,
    }
}
