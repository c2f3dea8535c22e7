//! Matches in a time, by the readings of a clock.

use super::{BASE, BLACK, WHITE};
use hive_model::{Colour, Game};
use io_edge::MemClock;
use match_core::{Cause, Level, Referee, Setup, Verdict};
use match_runner::run_match;
use memory_sides::MemSetting;
use plain_game::PlainGame;
use std::alloc::{AllocError, Global};
use std::test::Fail;

const IN_A_SECOND: Setup = Setup {
    game_type: BASE,
    level: Level::Time {
        budget: 1000,
        margin: 50,
    },
    limit: 1,
    repetition: false,
};

/// Runs a match of one ply, with a second for it, by these readings of a clock.
fn timed(alloc: Global, readings: &[u64]) -> Result<Referee<PlainGame>, AllocError> {
    let mut white = MemSetting::of(WHITE).cut(&[7]).link(alloc)?;
    let mut black = MemSetting::of(BLACK).cut(&[7]).link(alloc)?;
    let mut clock = MemClock::new(Vec::from_slice(alloc, readings)?);
    run_match(alloc, &mut white, &mut black, &mut clock, IN_A_SECOND)
}

/// Whether white was late: asked at the first of these readings, and answered at the second.
fn is_late(verdict: Option<&Verdict>, first: u64, second: u64) -> bool {
    match verdict {
        Some(
            Verdict::Forfeit {
                side: Colour::White,
                cause: Cause::Late { asked, answered },
            },
        ) => *asked == first && *answered == second,
        _ => false,
    }
}

#[test]
fn an_answer_at_the_last_moment_is_in_time(rt: HostRuntime) -> Result<(), Fail> {
    let referee = timed(rt.alloc(), &[100, 1150])?;
    assert!(rt;
        matches!(referee.verdict(), Some(Verdict::Limit)),
        "no limit"
    );
    assert_eq!(rt; referee.game().plies(), 1);
    Ok(())
}

#[test]
fn an_answer_past_the_last_moment_is_late(rt: HostRuntime) -> Result<(), Fail> {
    let referee = timed(rt.alloc(), &[100, 1151])?;
    assert!(rt; is_late(referee.verdict(), 100, 1151), "not late");
    assert_eq!(rt; referee.game().plies(), 0);
    Ok(())
}
