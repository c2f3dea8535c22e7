//! Tournaments of programs in memory, with openings and earlier games that are read.
ghost use Rattle.tournament_command.specs.Formats.{IsFormat};

use crate::engines::{BASE, links_of, two_programs};
use crate::seen::expect_seen;
use command_runs::Status;
use io_edge::{MemSink, MemSource, MemSpawner};
use match_core::{Level, Setup};
use memory_sides::{MemSetting, Played, spawner_of};
use plain_game::PlainGame;
use std::alloc::{AllocError, Global};
use std::test::Fail;
use std::thread::Threads;
use tournament_command::{Format, play_read_tournament};
use tournament_edge::StepClocks;

const THREE_PLIES: Setup = Setup {
    game_type: BASE,
    level: Level::Depth { depth: 1 },
    limit: 3,
    repetition: false,
};

const TWO_ROUNDS: Format = Format {
    setup: THREE_PLIES,
    rounds: 2,
    gauntlet: false,
    at_once: 3,
    resume: false,
};

const RESUMED: Format = Format {
    setup: THREE_PLIES,
    rounds: 1,
    gauntlet: false,
    at_once: 3,
    resume: true,
};

/// What white says in a game that begins with two plies and ends with three.
const WHITE: &[u8] = b"id A\nok\nok\nwQ /wS1\nok\nok\n";

/// What black says in it.
const BLACK: &[u8] = b"id B\nok\nok\nok\n";

const OPENINGS: &[u8] = b"Base;InProgress;White[2];wS1;bS1 wS1-\n\
    Base;InProgress;White[2];wS1;bS1 wS1/\n";

/// The second opening has a piece that does not exist.
const ILLEGAL: &[u8] = b"Base;InProgress;White[2];wS1;bS1 wS1-\n\
    Base;InProgress;White[2];wS1;bA4 wS1/\n";

/// The openings, and the head and the first two games of one round. The sum is that of the lines of
/// the openings, by `sha256sum`.
const HANDED_IN: &[u8] = b"Base;InProgress;White[2];wS1;bS1 wS1-\n\
    Base;InProgress;White[2];wS1;bS1 wS1/\n\n\
    tournament 1 type Base depth 1 plies 3 repetition 0 rounds 1 gauntlet 0 openings 2 sha256 \
    da6f8ce80ecc79d83f9af4253977b413c85e9483b86c756b1c05b788fef40769 engines a;b\n\
    game 1 1 2 Base;InProgress;Black[2];wS1;bS1 wS1-;wQ /wS1\nverdict 1 1 2 limit 3\n\
    game 2 2 1 Base;InProgress;Black[2];wS1;bS1 wS1-;wQ /wS1\nverdict 2 2 1 limit 3\n";

/// The same, but the last line is cut.
const CUT: &[u8] = b"Base;InProgress;White[2];wS1;bS1 wS1-\n\
    Base;InProgress;White[2];wS1;bS1 wS1/\n\n\
    tournament 1 type Base depth 1 plies 3 repetition 0 rounds 1 gauntlet 0 openings 2 sha256 \
    da6f8ce80ecc79d83f9af4253977b413c85e9483b86c756b1c05b788fef40769 engines a;b\n\
    game 1 1 2 Base;InProgress;Black[2];wS1;bS1 wS1-;wQ /wS1\nverdict 1 1 2 limit 3\n\
    game 2 2 1 Base;InProgress;Black[2];wS1;bS1 wS1-;wQ /wS1\nverdict 2 2 1 li";

/// The openings, and the head of two rounds.
const OTHER_ROUNDS: &[u8] = b"Base;InProgress;White[2];wS1;bS1 wS1-\n\
    Base;InProgress;White[2];wS1;bS1 wS1/\n\n\
    tournament 1 type Base depth 1 plies 3 repetition 0 rounds 2 gauntlet 0 openings 2 sha256 \
    da6f8ce80ecc79d83f9af4253977b413c85e9483b86c756b1c05b788fef40769 engines a;b\n";

/// The openings, and a part of the head of one round.
const CUT_HEAD: &[u8] = b"Base;InProgress;White[2];wS1;bS1 wS1-\n\
    Base;InProgress;White[2];wS1;bS1 wS1/\n\n\
    tournament 1 type Base depth 1 plies 3 rep";

/// The text of two rounds.
const TEXT: &[u8] =
    b"tournament 1 type Base depth 1 plies 3 repetition 0 rounds 2 gauntlet 0 openings 2 sha256 \
    da6f8ce80ecc79d83f9af4253977b413c85e9483b86c756b1c05b788fef40769 engines a;b\n\
    game 1 1 2 Base;InProgress;Black[2];wS1;bS1 wS1-;wQ /wS1\n\
    verdict 1 1 2 limit 3\n\
    game 2 2 1 Base;InProgress;Black[2];wS1;bS1 wS1-;wQ /wS1\nverdict 2 2 1 limit 3\n\
    game 3 1 2 Base;InProgress;Black[2];wS1;bS1 wS1/;wQ /wS1\nverdict 3 1 2 limit 3\n\
    game 4 2 1 Base;InProgress;Black[2];wS1;bS1 wS1/;wQ /wS1\nverdict 4 2 1 limit 3\n\
    game 5 1 2 Base;InProgress;Black[2];wS1;bS1 wS1-;wQ /wS1\nverdict 5 1 2 limit 3\n\
    game 6 2 1 Base;InProgress;Black[2];wS1;bS1 wS1-;wQ /wS1\nverdict 6 2 1 limit 3\n\
    game 7 1 2 Base;InProgress;Black[2];wS1;bS1 wS1/;wQ /wS1\nverdict 7 1 2 limit 3\n\
    game 8 2 1 Base;InProgress;Black[2];wS1;bS1 wS1/;wQ /wS1\nverdict 8 2 1 limit 3\n\
    a points 8 games 8 wins 0 draws 8 losses 0 forfeits 0\n\
    b points 8 games 8 wins 0 draws 8 losses 0 forfeits 0\n";

/// The text of one round after its second game.
const BEHIND_TWO: &[u8] =
    b"tournament 1 type Base depth 1 plies 3 repetition 0 rounds 1 gauntlet 0 openings 2 sha256 \
    da6f8ce80ecc79d83f9af4253977b413c85e9483b86c756b1c05b788fef40769 engines a;b\n\
    game 3 1 2 Base;InProgress;Black[2];wS1;bS1 wS1/;wQ /wS1\n\
    verdict 3 1 2 limit 3\n\
    game 4 2 1 Base;InProgress;Black[2];wS1;bS1 wS1/;wQ /wS1\nverdict 4 2 1 limit 3\n\
    a points 4 games 4 wins 0 draws 4 losses 0 forfeits 0\n\
    b points 4 games 4 wins 0 draws 4 losses 0 forfeits 0\n";

/// The text of one round after its first game.
const BEHIND_ONE: &[u8] =
    b"tournament 1 type Base depth 1 plies 3 repetition 0 rounds 1 gauntlet 0 openings 2 sha256 \
    da6f8ce80ecc79d83f9af4253977b413c85e9483b86c756b1c05b788fef40769 engines a;b\n\
    game 2 2 1 Base;InProgress;Black[2];wS1;bS1 wS1-;wQ /wS1\n\
    verdict 2 2 1 limit 3\n\
    game 3 1 2 Base;InProgress;Black[2];wS1;bS1 wS1/;wQ /wS1\nverdict 3 1 2 limit 3\n\
    game 4 2 1 Base;InProgress;Black[2];wS1;bS1 wS1/;wQ /wS1\nverdict 4 2 1 limit 3\n\
    a points 4 games 4 wins 0 draws 4 losses 0 forfeits 0\n\
    b points 4 games 4 wins 0 draws 4 losses 0 forfeits 0\n";

/// Plays the tournament of the programs `a` and `b` with this input, over the links of this number
/// of games.
fn play_over<R: Threads + Sync>(
    rt: &R,
    alloc: Global,
    format: Format,
    text: &[u8],
    games: usize,
) -> Result<Played<Status>, AllocError>
    requires { IsFormat format }
{
    let programs = two_programs(alloc)?;
    let setting = MemSetting::of(text).cut(&[7]);
    let mut input = setting.source(alloc)?;
    let mut output = setting.sink(alloc)?;
    let mut spawner = spawner_of(alloc, links_of(alloc, WHITE, BLACK, games)?, 0)?;
    let clocks = StepClocks { start: 0, step: 1 };
    let status = play_read_tournament::<R, MemSource, MemSpawner, MemSink, PlainGame, StepClocks>(
        rt,
        alloc,
        programs,
        format,
        &mut input,
        &mut output,
        &mut spawner,
        &clocks,
    );
    Ok(Played {
        status,
        output,
        spawner,
    })
}

#[test]
fn openings_are_read_and_each_pair_plays_from_each(rt: HostRuntime) -> Result<(), Fail> {
    let seen = play_over(&rt, rt.alloc(), TWO_ROUNDS, OPENINGS, 8)?;
    expect_seen(&rt, &seen, Status::Done, TEXT, 16);
    Ok(())
}

#[test]
fn games_that_are_handed_in_are_not_played_again(rt: HostRuntime) -> Result<(), Fail> {
    let seen = play_over(&rt, rt.alloc(), RESUMED, HANDED_IN, 4)?;
    expect_seen(&rt, &seen, Status::Done, BEHIND_TWO, 4);
    Ok(())
}

#[test]
fn a_game_whose_verdict_is_cut_is_played_again(rt: HostRuntime) -> Result<(), Fail> {
    let seen = play_over(&rt, rt.alloc(), RESUMED, CUT, 4)?;
    expect_seen(&rt, &seen, Status::Done, BEHIND_ONE, 6);
    Ok(())
}

#[test]
fn an_opening_that_is_illegal_is_refused(rt: HostRuntime) -> Result<(), Fail> {
    let seen = play_over(&rt, rt.alloc(), TWO_ROUNDS, ILLEGAL, 8)?;
    expect_seen(&rt, &seen, Status::BadInput, b"bad line 2\n".as_slice(), 0);
    Ok(())
}

#[test]
fn the_head_of_another_tournament_is_refused(rt: HostRuntime) -> Result<(), Fail> {
    let seen = play_over(&rt, rt.alloc(), RESUMED, OTHER_ROUNDS, 4)?;
    expect_seen(
        &rt,
        &seen,
        Status::BadInput,
        b"bad line 4 other rounds\n".as_slice(),
        0,
    );
    Ok(())
}

#[test]
fn behind_a_head_that_is_cut_all_games_are_played(rt: HostRuntime) -> Result<(), Fail> {
    let seen = play_over(&rt, rt.alloc(), RESUMED, CUT_HEAD, 4)?;
    assert_eq!(&rt; seen.status, Status::Done);
    assert_eq!(&rt; seen.spawner.closed().len(), 8);
    Ok(())
}
