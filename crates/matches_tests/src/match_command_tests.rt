//! Matches of two programs in memory.
ghost use Rattle.match_core.specs.Keeps.{IsSetup};

mod causes;
mod faults;
mod repetition;

use crate::seen::{expect_seen, expect_sent};
use command_runs::Status;
use fast_game::FastGame;
use hive_model::GameType;
use io_edge::{Clock, MemClock, MemSink, MemSpawner, StepClock};
use match_command::play_match;
use match_core::{Level, Setup};
use memory_sides::{CUTS, MemSetting, Played, links_of, owned_words, spawner_of};
use std::alloc::{AllocError, Global};
use std::test::Fail;

const BASE: GameType = GameType {
    mosquito: false,
    ladybug: false,
    pillbug: false,
};

const DEPTH_ONE: Setup = Setup {
    game_type: BASE,
    level: Level::Depth { depth: 1 },
    limit: 400,
    repetition: false,
};

const IN_A_SECOND: Setup = Setup {
    game_type: BASE,
    level: Level::Time {
        budget: 1000,
        margin: 50,
    },
    limit: 1,
    repetition: false,
};

/// White greets, begins, plays `wS1` and is told of it.
const WHITE: &[u8] = b"id A\nok\nx\nok\nwS1\nok\nx\nok\n";

/// Black greets, begins, is told of white's move and answers with a move that is not legal.
const BLACK: &[u8] = b"id B\nok\nx\nok\nx\nok\nbQ -wS1\nok\n";

const TO_WHITE: &[u8] = b"newgame Base\nbestmove depth 1\nplay wS1\n";

const TO_BLACK: &[u8] = b"newgame Base\nplay wS1\nbestmove depth 1\n";

const ILLEGAL: &[u8] = b"Base;InProgress;Black[1];wS1\nforfeit black illegal bQ -wS1\n";

/// A link that says this text in pieces of seven bytes; no call of it fails.
pub(crate) fn in_sevens(text: &[u8]) -> MemSetting<'_> {
    MemSetting::of(text).cut(&[7])
}

/// Plays a match over the links of a starter. The write of the output with this number fails (0:
/// none fails).
fn play_with<C: Clock>(
    alloc: Global,
    mut spawner: MemSpawner,
    setup: Setup,
    clock: &mut C,
    failing_write: u64,
) -> Result<Played<Status>, AllocError>
    requires { IsSetup setup }
{
    let words = owned_words(alloc, &["engine"])?;
    let output = MemSetting::of(b"").cut(&[7]).failing(0, failing_write);
    let mut output = output.sink(alloc)?;
    let status = play_match::<MemSpawner, MemSink, C, FastGame>(
        alloc,
        words.as_slice(),
        words.as_slice(),
        setup,
        &mut output,
        clock,
        &mut spawner,
    );
    Ok(Played {
        status,
        output,
        spawner,
    })
}

/// Plays a match to depth 1.
fn play_deep(
    alloc: Global,
    white: MemSetting<'_>,
    black: MemSetting<'_>,
) -> Result<Played<Status>, AllocError> {
    let spawner = spawner_of(alloc, links_of(alloc, &[white, black])?, 0)?;
    play_with(alloc, spawner, DEPTH_ONE, &mut StepClock::new(0, 1), 0)
}

/// Plays a match of one ply, with a second for it, by these readings of a clock.
fn play_timed(alloc: Global, readings: &[u64]) -> Result<Played<Status>, AllocError> {
    let links = links_of(alloc, &[in_sevens(WHITE), in_sevens(BLACK)])?;
    let spawner = spawner_of(alloc, links, 0)?;
    let mut clock = MemClock::new(Vec::from_slice(alloc, readings)?);
    play_with(alloc, spawner, IN_A_SECOND, &mut clock, 0)
}

#[test]
fn an_illegal_move_forfeits(rt: HostRuntime) -> Result<(), Fail> {
    for pieces in CUTS {
        let white = MemSetting::of(WHITE).cut(pieces);
        let black = MemSetting::of(BLACK).cut(pieces);
        let seen = play_deep(rt.alloc(), white, black)?;
        expect_seen(&rt, &seen, Status::Done, ILLEGAL, 2);
        expect_sent(&rt, &seen, &[TO_WHITE, TO_BLACK]);
    }
    Ok(())
}

#[test]
fn a_match_ends_at_its_limit(rt: HostRuntime) -> Result<(), Fail> {
    let seen = play_timed(rt.alloc(), &[100, 1150])?;
    let text = b"Base;InProgress;Black[1];wS1\nlimit 1\n".as_slice();
    expect_seen(&rt, &seen, Status::Done, text, 2);
    let asked = b"newgame Base\nbestmove time 00:00:01\nplay wS1\n".as_slice();
    expect_sent(&rt, &seen, &[asked]);
    Ok(())
}

#[test]
fn a_late_answer_forfeits(rt: HostRuntime) -> Result<(), Fail> {
    let seen = play_timed(rt.alloc(), &[100, 1151])?;
    let text = b"Base;NotStarted;White[1]\nforfeit white late 100 1151\n".as_slice();
    expect_seen(&rt, &seen, Status::Done, text, 2);
    Ok(())
}

/// A game that white wins.
const WON: [&[u8]; 13] = [
    b"wS1",
    b"bS1 wS1-",
    b"wQ /wS1",
    b"bQ bS1-",
    b"wQ /bS1",
    b"bQ wQ-",
    b"wG1 -wS1",
    b"bG1 bS1-",
    b"wB1 /wQ",
    b"bB1 bQ-",
    b"wA1 -wB1",
    b"bA1 /bB1",
    b"wA1 wB1-",
];

/// What a side says in a game: it makes the moves of this parity, and is told of all.
fn said_by(alloc: Global, game: &[&[u8]], parity: usize) -> Result<Vec<u8>, AllocError> {
    let mut text = Vec::from_slice(alloc, b"ok\nok\n".as_slice())?;
    for (number, line) in game.iter().enumerate() {
        if number % 2 == parity {
            text.extend_from_slice(line)?;
            text.extend_from_slice(b"\nok\n".as_slice())?;
        }
        text.extend_from_slice(b"ok\n".as_slice())?;
    }
    Ok(text)
}

#[test]
fn a_match_ends_by_the_rules(rt: HostRuntime) -> Result<(), Fail> {
    let white = said_by(rt.alloc(), &WON, 0)?;
    let black = said_by(rt.alloc(), &WON, 1)?;
    let (white, black) = (in_sevens(white.as_slice()), in_sevens(black.as_slice()));
    let seen = play_deep(rt.alloc(), white, black)?;
    assert_eq!(rt; seen.status, Status::Done);
    let text = seen.output.bytes();
    assert!(rt; text.starts_with(b"Base;WhiteWins;Black[7];wS1;".as_slice()));
    assert!(rt; text.ends_with(b"\nresult WhiteWins\n".as_slice()));
    Ok(())
}
