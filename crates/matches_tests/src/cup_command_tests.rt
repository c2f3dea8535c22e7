//! Cups of programs in memory.
ghost use Rattle.std.specs.Prelude.{◌≤◌, length};

use crate::engines::program_of;
use crate::seen::{expect_cut, expect_seen, expect_sent};
use command_runs::Status;
use cup::{FreeCupGate, Program};
use cup_command::play_cup;
use hive_model::GameType;
use io_edge::{MemLink, MemSink, MemSpawner};
use match_core::{Level, Setup};
use memory_sides::{MemSetting, Played, links_saying, spawner_of};
use plain_game::PlainGame;
use std::alloc::{AllocError, Global};
use std::test::Fail;
use std::thread::Threads;

const ONE_PLY: Setup = Setup {
    game_type: GameType {
        mosquito: false,
        ladybug: false,
        pillbug: false,
    },
    level: Level::Depth { depth: 1 },
    limit: 1,
    repetition: false,
};

/// What white says in a game of one ply.
const WHITE: &[u8] = b"id A\nok\nok\nwS1\nok\nok\n";

/// What black says in it.
const BLACK: &[u8] = b"id B\nok\nok\nok\n";

/// What white is sent in it.
const TO_WHITE: &[u8] = b"newgame Base\nbestmove depth 1\nplay wS1\n";

/// What black is sent in it.
const TO_BLACK: &[u8] = b"newgame Base\nplay wS1\n";

/// Plays a cup of these programs over these links. The start of the second number fails, and the
/// write of the output of the third one (0: none fails).
fn play_over<R: Threads + Sync>(
    rt: &R,
    alloc: Global,
    programs: &[Program],
    links: Vec<MemLink>,
    failing_start: u64,
    failing_write: u64,
) -> Result<Played<Status>, AllocError>
    requires some { 2 ≤ length programs.now }
    requires few { length programs.now ≤ 8 }
{
    let output = MemSetting::of(b"").cut(&[7]).failing(0, failing_write);
    let mut output = output.sink(alloc)?;
    let mut spawner = spawner_of(alloc, links, failing_start)?;
    let status = play_cup::<R, MemSpawner, MemSink, PlainGame, FreeCupGate>(
        rt,
        alloc,
        programs,
        ONE_PLY,
        &mut output,
        &mut spawner,
        &FreeCupGate,
    );
    Ok(Played {
        status,
        output,
        spawner,
    })
}

/// Plays a cup of the programs `a` and `b`. In its second game white ends at once.
fn play_two<R: Threads + Sync>(
    rt: &R,
    alloc: Global,
    failing_start: u64,
    failing_write: u64,
) -> Result<Played<Status>, AllocError> {
    let programs = [program_of(alloc, "a")?, program_of(alloc, "b")?];
    let links = links_saying(alloc, &[WHITE, BLACK, b"", b"id A\nok\n"])?;
    play_over(rt, alloc, &programs, links, failing_start, failing_write)
}

/// The text of that cup.
const TEXT: &[u8] = b"game 1 2 Base;InProgress;Black[1];wS1\nverdict 1 2 limit 1\n\
    game 2 1 Base;NotStarted;White[1]\nverdict 2 1 forfeit white ended\n\
    a points 3 games 2\nb points 1 games 2\n";

#[test]
fn two_programs_play_a_cup(rt: HostRuntime) -> Result<(), Fail> {
    let alloc = rt.alloc();
    let seen = play_two(&rt, alloc, 0, 0)?;
    expect_seen(&rt, &seen, Status::Done, TEXT, 4);
    expect_sent(&rt, &seen, &[TO_WHITE, TO_BLACK, b""]);
    Ok(())
}

#[test]
fn a_program_does_not_start(rt: HostRuntime) -> Result<(), Fail> {
    let alloc = rt.alloc();
    for start in 1..5u64 {
        let seen = play_two(&rt, alloc, start, 0)?;
        expect_seen(&rt, &seen, Status::SpawnFault, b"", start as usize - 1);
        assert!(rt; start == 1 || seen.sent(0).is_empty());
    }
    Ok(())
}

#[test]
fn a_write_of_the_output_fails(rt: HostRuntime) -> Result<(), Fail> {
    let alloc = rt.alloc();
    for (write, bytes) in [(1, 0), (2, 7), (9, 56)] {
        let seen = play_two(&rt, alloc, 0, write)?;
        expect_cut(&rt, &seen, TEXT, bytes, 4);
    }
    Ok(())
}

/// The text of a cup of three engines that play one ply in each game. The second engine breaks in
/// the first game.
const BROKEN: &[u8] = b"game 1 2 Base;NotStarted;White[1]\nverdict 1 2 forfeit black broke\n\
    game 1 3 Base;InProgress;Black[1];wS1\nverdict 1 3 limit 1\n\
    game 2 1 Base;InProgress;Black[1];wS1\nverdict 2 1 limit 1\n\
    game 2 3 Base;InProgress;Black[1];wS1\nverdict 2 3 limit 1\n\
    game 3 1 Base;InProgress;Black[1];wS1\nverdict 3 1 limit 1\n\
    game 3 2 Base;InProgress;Black[1];wS1\nverdict 3 2 limit 1\n\
    a points 5 games 4\nc?d points 4 games 4\nb points 3 games 4\n";

#[test]
fn a_program_breaks(rt: HostRuntime) -> Result<(), Fail> {
    let alloc = rt.alloc();
    let mut links = Vec::new(alloc);
    for game in 0..6u64 {
        links.push(MemSetting::of(WHITE).link(alloc)?)?;
        let failing = if game == 0 { 1 } else { 0 };
        links.push(MemSetting::of(BLACK).failing(0, failing).link(alloc)?)?;
    }
    let programs = [
        program_of(alloc, "a")?,
        program_of(alloc, "b")?,
        program_of(alloc, "c\x7fd")?,
    ];
    let seen = play_over(&rt, alloc, programs.as_slice(), links, 0, 0)?;
    expect_seen(&rt, &seen, Status::Done, BROKEN, 12);
    assert_eq!(rt; seen.sent(2), TO_WHITE);
    assert_eq!(rt; seen.sent(11), TO_BLACK);
    Ok(())
}
