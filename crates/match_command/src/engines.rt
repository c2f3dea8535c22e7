//! Starts and closes the two programs of a match.
ghost use Rattle.std.specs.Prelude.{◌≡◌, ◌+◌, ◌<◌, length, map, string_bytes, IfOk, OnErr, IsErrOf};
ghost use Rattle.io_edge.specs.Outside.{HasCause};
ghost use Rattle.match_runner.specs.Wires.{wire};
ghost use Rattle.match_command.specs.Match.{StartsNone};
ghost use Rattle.match_command.specs.Wires.{
  ClosesOne,
  ClosesTwo,
  CountsEither,
  StartsBoth,
  StartsFewer,
  StartsOne,
};

use io_edge::{Spawner, StartFault};

/// Starts black's program. If it does not start, white's is closed.
fn start_black<P: Spawner>(
    first: P::Engine,
    words: &[String],
    spawner: &mut P,
) -> Result<(P::Engine, P::Engine), StartFault>
    requires { 0 < length words.now }
    ensures started { IfOk result (λ e. (e.0 ≡ first) × StartsOne (map string_bytes words.now)
        (wire (P.Engine.rest e.1) (P.Engine.written e.1)
        (P.Engine.read_faults e.1) (P.Engine.write_faults e.1))
        (P.engines spawner.old) (P.engines spawner.new)) }
    ensures refused { OnErr result (ClosesOne (P.Engine.written first)
        (P.engines spawner.old) (P.engines spawner.new)) }
    ensures cause { HasCause (IsErrOf result StartFault.Failed)
        (P.engines spawner.old).start_faults (P.engines spawner.new).start_faults }
{
    match spawner.start(words) {
        Ok(black) => Ok((first, black)),
        Err(fault) => {
            spawner.close(first);
            Err(fault)
        }
    }
}

/// Starts white's program, then black's. If black's does not start, white's is closed.
pub(crate) fn start_both<P: Spawner>(
    white: &[String],
    black: &[String],
    spawner: &mut P,
) -> Result<(P::Engine, P::Engine), StartFault>
    requires white_some { 0 < length white.now }
    requires black_some { 0 < length black.now }
    ensures started { IfOk result (λ e. StartsBoth
        (map string_bytes white.now) (map string_bytes black.now)
        (wire (P.Engine.rest e.0) (P.Engine.written e.0)
        (P.Engine.read_faults e.0) (P.Engine.write_faults e.0))
        (wire (P.Engine.rest e.1) (P.Engine.written e.1)
        (P.Engine.read_faults e.1) (P.Engine.write_faults e.1))
        (P.engines spawner.old) (P.engines spawner.new)) }
    ensures refused { OnErr result (StartsFewer (map string_bytes white.now)
        (P.engines spawner.old) (P.engines spawner.new)) }
    ensures cause { HasCause (IsErrOf result StartFault.Failed)
        (P.engines spawner.old).start_faults (P.engines spawner.new).start_faults }
{
    match spawner.start(white) {
        Ok(engine) => start_black(engine, black, spawner),
        Err(fault) => Err(fault),
    }
}

/// Closes white's engine, then black's.
pub(crate) fn close_both<P: Spawner>(white: P::Engine, black: P::Engine, spawner: &mut P)
    ensures sent { ClosesTwo (P.engines spawner.old).sent (P.engines spawner.new).sent
        (P.Engine.written white) (P.Engine.written black) }
    ensures failed { CountsEither
        (P.Engine.read_faults white + P.Engine.write_faults white)
        (P.Engine.read_faults black + P.Engine.write_faults black)
        (P.engines spawner.old).engine_faults (P.engines spawner.new).engine_faults }
    ensures none_started { StartsNone (P.engines spawner.old) (P.engines spawner.new) }
{
    spawner.close(white);
    spawner.close(black);
}
