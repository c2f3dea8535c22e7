//! Audits of a program in memory, in which a call fails.
ghost use Rattle.audit_core.specs.Keeps.{IsPlan};

use crate::engines::BASE;
use crate::seen::{expect_seen, expect_sent};
use audit_command::audit_engine;
use audit_core::AuditPlan;
use command_runs::Status;
use fast_game::FastGame;
use io_edge::{MemSink, MemSpawner};
use memory_sides::{MemSetting, Played, links_of, owned_words, spawner_of};
use std::alloc::{AllocError, Global};
use std::test::Fail;

/// The engine greets, begins, lists the queen at the first turn, and then says no more.
const SAID: &[u8] = b"id A\nok\nBase;NotStarted;White[1]\nok\nwA1;wB1;wG1;wQ;wS1\nok\n";

/// What it is sent until then. After the fault found in the first game the second begins.
const SENT: &[u8] = b"newgame Base\nvalidmoves\nnewgame Base\n";

/// The same if the line that begins the second game is not sent.
const SENT_BEFORE: &[u8] = b"newgame Base\nvalidmoves\n";

/// The report if it breaks off then.
const BROKE: &[u8] = b"game 1 ply 0 Base;NotStarted;White[1] extra wQ\n\
    game 2 ply 0 Base;NotStarted;White[1] broke asked newgame Base\n\
    audited 2 games 0 positions 0 moves, 2 findings\n";

/// The same if there is a limit on the wait for an answer.
const LATE: &[u8] = b"game 1 ply 0 Base;NotStarted;White[1] extra wQ\n\
    game 2 ply 0 Base;NotStarted;White[1] late asked newgame Base\n\
    audited 2 games 0 positions 0 moves, 2 findings\n";

/// The same if its output ends.
const ENDED: &[u8] = b"game 1 ply 0 Base;NotStarted;White[1] extra wQ\n\
    game 2 ply 0 Base;NotStarted;White[1] ended asked newgame Base\n\
    audited 2 games 0 positions 0 moves, 2 findings\n";

/// The report if not even the greeting is whole.
const UNGREETED: &[u8] = b"game 1 ply 0 Base;NotStarted;White[1] ended\n\
    audited 1 games 0 positions 0 moves, 1 findings\n";

/// Three games of the type Base.
const THREE_GAMES: AuditPlan = AuditPlan {
    games: 3,
    first: 1,
    seed: 0,
    plies: 2,
    game_type: Some(BASE),
    most: 1_000_000,
    patient: false,
};

/// The same with a limit on the wait for an answer.
const PATIENTLY: AuditPlan = AuditPlan {
    games: 3,
    first: 1,
    seed: 0,
    plies: 2,
    game_type: Some(BASE),
    most: 1_000_000,
    patient: true,
};

/// Two games from the fourth on, of any types.
const FROM_THE_FOURTH: AuditPlan = AuditPlan {
    games: 2,
    first: 4,
    seed: 0,
    plies: 2,
    game_type: None,
    most: 1_000_000,
    patient: false,
};

/// The engine plays all expansions, lists the queen at the first turn, and then says no more.
const SAID_OF_ALL: &[u8] =
    b"id A\nMosquito;Ladybug;Pillbug\nok\nBase+ML;NotStarted;White[1]\nok\nwQ\nok\n";

/// What it is sent from the fourth game on.
const SENT_FROM_THE_FOURTH: &[u8] = b"newgame Base+ML\nvalidmoves\nnewgame Base+P\n";

/// The report on it then.
const TOLD_FROM_THE_FOURTH: &[u8] = b"game 4 ply 0 Base+ML;NotStarted;White[1] extra wQ\n\
    game 5 ply 0 Base+P;NotStarted;White[1] ended asked newgame Base+P\n\
    audited 2 games 0 positions 0 moves, 2 findings\n";

/// Audits the program with this setting.
fn audit(
    alloc: Global,
    engine: MemSetting<'_>,
    plan: AuditPlan,
) -> Result<Played<Status>, AllocError>
    requires { IsPlan plan }
{
    let words = owned_words(alloc, &["engine"])?;
    let mut output = MemSetting::of(b"").sink(alloc)?;
    let mut spawner = spawner_of(alloc, links_of(alloc, &[engine])?, 0)?;
    let status = audit_engine::<MemSpawner, MemSink, FastGame>(
        alloc,
        words.as_slice(),
        plan,
        &mut output,
        &mut spawner,
    );
    Ok(Played {
        status,
        output,
        spawner,
    })
}

#[test]
fn what_was_found_before_a_failed_read_is_told(rt: HostRuntime) -> Result<(), Fail> {
    let at_once = MemSetting::of(SAID).failing(2, 0);
    let in_bytes = MemSetting::of(SAID)
        .cut(&[1])
        .failing(SAID.len() as u64 + 1, 0);
    for engine in [at_once, in_bytes] {
        let seen = audit(rt.alloc(), engine, THREE_GAMES)?;
        expect_seen(&rt, &seen, Status::Refused, BROKE, 1);
        expect_sent(&rt, &seen, &[SENT]);
        let seen = audit(rt.alloc(), engine, PATIENTLY)?;
        expect_seen(&rt, &seen, Status::Refused, LATE, 1);
        expect_sent(&rt, &seen, &[SENT]);
    }
    Ok(())
}

#[test]
fn what_was_found_before_a_failed_write_is_told(rt: HostRuntime) -> Result<(), Fail> {
    let seen = audit(rt.alloc(), MemSetting::of(SAID).failing(0, 3), PATIENTLY)?;
    expect_seen(&rt, &seen, Status::Refused, BROKE, 1);
    expect_sent(&rt, &seen, &[SENT_BEFORE]);
    Ok(())
}

#[test]
fn what_was_found_before_the_end_is_told(rt: HostRuntime) -> Result<(), Fail> {
    let seen = audit(rt.alloc(), MemSetting::of(SAID), THREE_GAMES)?;
    expect_seen(&rt, &seen, Status::Refused, ENDED, 1);
    expect_sent(&rt, &seen, &[SENT]);
    Ok(())
}

#[test]
fn games_go_on_from_the_first_one(rt: HostRuntime) -> Result<(), Fail> {
    let seen = audit(rt.alloc(), MemSetting::of(SAID_OF_ALL), FROM_THE_FOURTH)?;
    expect_seen(&rt, &seen, Status::Refused, TOLD_FROM_THE_FOURTH, 1);
    expect_sent(&rt, &seen, &[SENT_FROM_THE_FOURTH]);
    Ok(())
}

#[test]
fn no_line_is_named_where_the_greeting_is_missing(rt: HostRuntime) -> Result<(), Fail> {
    let seen = audit(rt.alloc(), MemSetting::of(b"id A\n"), THREE_GAMES)?;
    expect_seen(&rt, &seen, Status::Refused, UNGREETED, 1);
    expect_sent(&rt, &seen, &[b"".as_slice()]);
    Ok(())
}
