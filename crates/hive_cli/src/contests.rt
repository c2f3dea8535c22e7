//! The commands that start programs: a match, a cup, a tournament and an audit.
ghost use Rattle.std.specs.Prelude.{◌≡◌, List};
ghost use Rattle.io_edge.specs.Outside.{HasCause, Told};
ghost use Rattle.hive_model.specs.declared.best.Timed.{Timed};
ghost use Rattle.command_runs.specs.World.{Times, sides, times, world};
ghost use Rattle.command_words.specs.Audits.{AreAuditWords};
ghost use Rattle.command_words.specs.Cups.{AreCupWords};
ghost use Rattle.command_words.specs.Matches.{AreMatchWords};
ghost use Rattle.command_words.specs.Tournaments.{AreTournamentWords};
ghost use Rattle.audit_core.specs.Keeps.{IsPlan};
ghost use Rattle.audit_command.specs.Audit.{AuditRun, EndsAudit};
ghost use Rattle.match_command.specs.Ends.{EndsRun};
ghost use Rattle.match_command.specs.Match.{NoneIsOpen};
ghost use Rattle.match_core.specs.Keeps.{IsSetup};
ghost use Rattle.tournament_command.specs.Formats.{IsFormat};
ghost use Rattle.hive_cli.specs.Run.{
  PlaysEngines,
  PlaysMatch,
  PlaysTournament,
  StartsAudited,
  plan_of,
};

use audit_command::audit_engine;
use audit_core::AuditPlan;
use command_runs::Status;
use command_words::{AuditAsked, audited_of, engines_of, programs_of, tournament_engines_of};
use cup::FreeCupGate;
use cup_command::play_cup;
use hive_model::Game;
use io_edge::{Clock, Sink, Source, Spawner};
use match_command::{play_match, play_read_match};
use match_core::Setup;
use std::alloc::Global;
use std::thread::Threads;
use tournament_command::{Format, play_read_tournament};
use tournament_edge::{Clocks, Progress};

/// Plays the match that the words ask for, by this setup, from the opening or from the game of the
/// input.
pub(crate) fn matched<S: Source, K: Sink, C: Clock, P: Spawner, G: Game + Drop>(
    alloc: Global,
    words: &[String],
    setup: Setup,
    from: bool,
    input: &mut S,
    output: &mut K,
    clock: &mut C,
    spawner: &mut P,
) -> Status
    requires words { AreMatchWords words.now setup from }
    requires setup { IsSetup setup }
    ensures run { (timed : List Timed) → PlaysMatch words.now setup from result
        (world (sides (S.rest input.old) (K.written output.old))
        (times (C.last clock.old) (C.readings clock.old) timed) (P.engines spawner.old))
        (world (sides (S.rest input.new) (K.written output.new))
        (times (C.last clock.new) (C.readings clock.new) timed) (P.engines spawner.new)) }
    ensures ends { EndsRun result (K.write_faults output.old) (K.write_faults output.new)
        (P.engines spawner.old) (P.engines spawner.new) }
    ensures reads { HasCause (result ≡ Status.ReadFault) (S.read_faults input.old)
        (S.read_faults input.new) }
{
    let Ok(programs) = programs_of(alloc, words) else {
        return Status::Memory;
    };
    let white = programs.white.as_slice();
    let black = programs.black.as_slice();
    if from {
        play_read_match::<S, P, K, C, G>(alloc, white, black, setup, input, output, clock, spawner)
    } else {
        play_match::<P, K, C, G>(alloc, white, black, setup, output, clock, spawner)
    }
}

/// Plays the cup that the words ask for, with each game by this setup.
pub(crate) fn cupped<R: Threads + Sync, K: Sink, P: Spawner, G: Game + Send + Drop>(
    rt: &R,
    alloc: Global,
    words: &[String],
    setup: Setup,
    output: &mut K,
    spawner: &mut P,
) -> Status
    requires words { AreCupWords words.now setup }
    requires setup { IsSetup setup }
    ensures run { (rest : Told) (times : Times) → PlaysEngines words.now setup result
        (world (sides rest (K.written output.old)) times (P.engines spawner.old))
        (world (sides rest (K.written output.new)) times (P.engines spawner.new)) }
    ensures ends { EndsRun result (K.write_faults output.old) (K.write_faults output.new)
        (P.engines spawner.old) (P.engines spawner.new) }
{
    let Ok(engines) = engines_of(alloc, words) else {
        return Status::Memory;
    };
    play_cup::<R, P, K, G, FreeCupGate>(
        rt,
        alloc,
        engines.as_slice(),
        setup,
        output,
        spawner,
        &FreeCupGate,
    )
}

/// Plays the tournament that the words ask for.
pub(crate) fn contested<
    R: Threads + Sync,
    S: Source,
    K: Sink,
    P: Spawner,
    H: Clocks + Progress + Sync,
    G: Game + Send + Drop,
>(
    rt: &R,
    alloc: Global,
    words: &[String],
    format: Format,
    input: &mut S,
    output: &mut K,
    spawner: &mut P,
    hall: &H,
) -> Status
    requires words { AreTournamentWords words.now format.setup format.rounds format.gauntlet
        format.at_once format.resume }
    requires format { IsFormat format }
    ensures run { (times : Times) → PlaysTournament words.now format result
        (world (sides (S.rest input.old) (K.written output.old)) times (P.engines spawner.old))
        (world (sides (S.rest input.new) (K.written output.new)) times (P.engines spawner.new)) }
    ensures closed { NoneIsOpen (P.engines spawner.old) (P.engines spawner.new) }
    ensures writes { HasCause (result ≡ Status.WriteFault) (K.write_faults output.old)
        (K.write_faults output.new) }
    ensures reads { HasCause (result ≡ Status.ReadFault) (S.read_faults input.old)
        (S.read_faults input.new) }
{
    let Ok(engines) = tournament_engines_of(alloc, words) else {
        return Status::Memory;
    };
    play_read_tournament::<R, S, P, K, G, H>(
        rt, alloc, engines, format, input, output, spawner, hall,
    )
}

/// The plan of the audit that is asked for.
fn plan_of(audit: AuditAsked) -> AuditPlan
    ensures { result ≡ plan_of audit }
{
    AuditPlan {
        games: audit.games,
        first: audit.first,
        seed: audit.seed,
        plies: audit.plies,
        game_type: audit.game_type,
        most: audit.most,
        patient: audit.patient,
    }
}

/// Audits the program that the words name, as they ask.
pub(crate) fn audited<K: Sink, P: Spawner, G: Game + Drop>(
    alloc: Global,
    words: &[String],
    audit: AuditAsked,
    output: &mut K,
    spawner: &mut P,
) -> Status
    requires words { AreAuditWords words.now audit }
    requires plan { IsPlan (plan_of audit) }
    ensures run { (rest : Told) (times : Times) → AuditRun (plan_of audit) result
        (world (sides rest (K.written output.old)) times (P.engines spawner.old))
        (world (sides rest (K.written output.new)) times (P.engines spawner.new)) }
    ensures program { StartsAudited words.now result (P.engines spawner.old)
        (P.engines spawner.new) }
    ensures ends { EndsAudit result (K.write_faults output.old) (K.write_faults output.new)
        (P.engines spawner.old) (P.engines spawner.new) }
{
    let Ok(program) = audited_of(alloc, words) else {
        return Status::Memory;
    };
    audit_engine::<P, K, G>(alloc, program.as_slice(), plan_of(audit), output, spawner)
}
