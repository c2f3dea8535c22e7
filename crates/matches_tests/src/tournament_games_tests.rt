//! Tournaments of programs in memory: two engines, two rounds, two openings.
ghost use Rattle.std.specs.Prelude.{◌≤◌, length};
ghost use Rattle.tournament_core.specs.Schedules.{schedule};

use crate::engines::{BASE, links_of, two_programs};
use crate::seen::{expect_cut, expect_seen};
use command_runs::Status;
use hive_model::MoveList;
use io_edge::{MemLink, MemSink, MemSpawner};
use match_core::{Level, Setup};
use memory_sides::{MemSetting, Played, spawner_of};
use plain_game::PlainGame;
use std::alloc::{AllocError, Global};
use std::test::Fail;
use std::thread::Threads;
use tournament_core::{GameEnd, Plan};
use tournament_edge::StepClocks;
use tournament_games::{Tournament, play_tournament};

const ONE_PLY: Setup = Setup {
    game_type: BASE,
    level: Level::Depth { depth: 1 },
    limit: 1,
    repetition: false,
};

const TWO_ROUNDS: Plan = Plan {
    engines: 2,
    rounds: 2,
    openings: 2,
    gauntlet: false,
};

/// What white says in a game of one ply.
const WHITE: &[u8] = b"id A\nok\nok\nwS1\nok\nok\n";

/// What black says in it.
const BLACK: &[u8] = b"id B\nok\nok\nok\n";

/// The text of eight games of one ply. The sum is that of two lines `Base;NotStarted;White[1]`, by
/// `sha256sum`.
const TEXT: &[u8] =
    b"tournament 1 type Base depth 1 plies 1 repetition 0 rounds 2 gauntlet 0 openings 2 sha256 \
    9ae2cff1f0f5e5514c4eb58e1a17e1182d7fe15d944432bce5c6b6f369b0caf6 engines a;b\n\
    game 1 1 2 Base;InProgress;Black[1];wS1\nverdict 1 1 2 limit 1\n\
    game 2 2 1 Base;InProgress;Black[1];wS1\nverdict 2 2 1 limit 1\n\
    game 3 1 2 Base;InProgress;Black[1];wS1\nverdict 3 1 2 limit 1\n\
    game 4 2 1 Base;InProgress;Black[1];wS1\nverdict 4 2 1 limit 1\n\
    game 5 1 2 Base;InProgress;Black[1];wS1\nverdict 5 1 2 limit 1\n\
    game 6 2 1 Base;InProgress;Black[1];wS1\nverdict 6 2 1 limit 1\n\
    game 7 1 2 Base;InProgress;Black[1];wS1\nverdict 7 1 2 limit 1\n\
    game 8 2 1 Base;InProgress;Black[1];wS1\nverdict 8 2 1 limit 1\n\
    a points 8 games 8 wins 0 draws 8 losses 0 forfeits 0\n\
    b points 8 games 8 wins 0 draws 8 losses 0 forfeits 0\n";

/// The text if white's program of the third game does not start.
const ABSENT: &[u8] =
    b"tournament 1 type Base depth 1 plies 1 repetition 0 rounds 2 gauntlet 0 openings 2 sha256 \
    9ae2cff1f0f5e5514c4eb58e1a17e1182d7fe15d944432bce5c6b6f369b0caf6 engines a;b\n\
    game 1 1 2 Base;InProgress;Black[1];wS1\nverdict 1 1 2 limit 1\n\
    game 2 2 1 Base;InProgress;Black[1];wS1\nverdict 2 2 1 limit 1\n\
    game 3 1 2 Base;NotStarted;White[1]\nverdict 3 1 2 forfeit white nostart\n\
    game 4 2 1 Base;InProgress;Black[1];wS1\nverdict 4 2 1 limit 1\n\
    game 5 1 2 Base;InProgress;Black[1];wS1\nverdict 5 1 2 limit 1\n\
    game 6 2 1 Base;InProgress;Black[1];wS1\nverdict 6 2 1 limit 1\n\
    game 7 1 2 Base;InProgress;Black[1];wS1\nverdict 7 1 2 limit 1\n\
    game 8 2 1 Base;InProgress;Black[1];wS1\nverdict 8 2 1 limit 1\n\
    b points 9 games 8 wins 1 draws 7 losses 0 forfeits 0\n\
    a points 7 games 8 wins 0 draws 7 losses 1 forfeits 1\n";

/// The text of the last two games, if six were drawn before.
const RESUMED: &[u8] =
    b"tournament 1 type Base depth 1 plies 1 repetition 0 rounds 2 gauntlet 0 openings 2 sha256 \
    9ae2cff1f0f5e5514c4eb58e1a17e1182d7fe15d944432bce5c6b6f369b0caf6 engines a;b\n\
    game 7 1 2 Base;InProgress;Black[1];wS1\nverdict 7 1 2 limit 1\n\
    game 8 2 1 Base;InProgress;Black[1];wS1\nverdict 8 2 1 limit 1\n\
    a points 8 games 8 wins 0 draws 8 losses 0 forfeits 0\n\
    b points 8 games 8 wins 0 draws 8 losses 0 forfeits 0\n";

/// A tournament of the programs `a` and `b`, with three games at once.
fn tournament_of(alloc: Global) -> Result<Tournament, AllocError> {
    let programs = two_programs(alloc)?;
    let mut openings = Vec::new(alloc);
    openings.push(MoveList::new(alloc))?;
    openings.push(MoveList::new(alloc))?;
    Ok(Tournament::new(programs, TWO_ROUNDS, ONE_PLY, openings, 3))
}

/// Plays a tournament over these links. The start of the first number fails, and the write of the
/// output of the second one (0: none fails).
fn play_over<R: Threads + Sync>(
    rt: &R,
    alloc: Global,
    tournament: &Tournament,
    played: &[GameEnd],
    links: Vec<MemLink>,
    failing_start: u64,
    failing_write: u64,
) -> Result<Played<Status>, AllocError>
    requires { length played.now ≤ length (schedule tournament.now.plan) }
{
    let output = MemSetting::of(b"").cut(&[7]).failing(0, failing_write);
    let mut output = output.sink(alloc)?;
    let mut spawner = spawner_of(alloc, links, failing_start)?;
    let clocks = StepClocks { start: 0, step: 1 };
    let status = play_tournament::<R, MemSpawner, MemSink, PlainGame, StepClocks>(
        rt,
        alloc,
        tournament,
        played,
        &mut output,
        &mut spawner,
        &clocks,
    );
    Ok(Played {
        status,
        output,
        spawner,
    })
}

#[test]
fn eight_games_are_played_in_waves(rt: HostRuntime) -> Result<(), Fail> {
    let alloc = rt.alloc();
    let tournament = tournament_of(alloc)?;
    let links = links_of(alloc, WHITE, BLACK, 8)?;
    let seen = play_over(&rt, alloc, &tournament, &[], links, 0, 0)?;
    expect_seen(&rt, &seen, Status::Done, TEXT, 16);
    Ok(())
}

#[test]
fn a_program_that_does_not_start_forfeits_its_game(rt: HostRuntime) -> Result<(), Fail> {
    let alloc = rt.alloc();
    let tournament = tournament_of(alloc)?;
    let links = links_of(alloc, WHITE, BLACK, 7)?;
    let seen = play_over(&rt, alloc, &tournament, &[], links, 5, 0)?;
    expect_seen(&rt, &seen, Status::Done, ABSENT, 14);
    Ok(())
}

#[test]
fn games_that_were_played_count_and_are_not_played_again(rt: HostRuntime) -> Result<(), Fail> {
    let alloc = rt.alloc();
    let tournament = tournament_of(alloc)?;
    let drawn = GameEnd {
        winner: None,
        forfeited: false,
    };
    let played = [drawn; 6];
    assert!(rt; tournament.plan().games() >= 6);
    let links = links_of(alloc, WHITE, BLACK, 2)?;
    let seen = play_over(&rt, alloc, &tournament, played.as_slice(), links, 0, 0)?;
    expect_seen(&rt, &seen, Status::Done, RESUMED, 4);
    Ok(())
}

#[test]
fn a_write_of_the_output_fails(rt: HostRuntime) -> Result<(), Fail> {
    let alloc = rt.alloc();
    let tournament = tournament_of(alloc)?;
    for (write, bytes, closed) in [(1, 0, 0), (2, 7, 0), (25, 167, 6), (53, 360, 12)] {
        let links = links_of(alloc, WHITE, BLACK, 8)?;
        let seen = play_over(&rt, alloc, &tournament, &[], links, 0, write)?;
        expect_cut(&rt, &seen, TEXT, bytes, closed);
    }
    Ok(())
}
