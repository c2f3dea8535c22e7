//! A match in which the last position occurs for the third time.
ghost use Rattle.match_core.specs.Keeps.{IsSetup};

use super::{BASE, in_sevens, play_with, said_by};
use crate::seen::expect_seen;
use command_runs::Status;
use io_edge::StepClock;
use match_core::{Level, Setup};
use memory_sides::{Played, links_of, spawner_of};
use std::alloc::{AllocError, Global};
use std::test::Fail;

/// Both queens leave their places and come back, twice.
const BACK_TWICE: [&[u8]; 12] = [
    b"wA1",
    b"bA1 wA1-",
    b"wQ -wA1",
    b"bQ bA1-",
    b"wQ \\wA1",
    b"bQ bA1/",
    b"wQ -wA1",
    b"bQ bA1-",
    b"wQ \\wA1",
    b"bQ bA1/",
    b"wQ -wA1",
    b"bQ bA1-",
];

/// The rule is on, and many more plies could be played.
const WITH_RULE: Setup = Setup {
    game_type: BASE,
    level: Level::Depth { depth: 1 },
    limit: 400,
    repetition: true,
};

/// The rule is off, and no more plies than these are played.
const WITHOUT_RULE: Setup = Setup {
    game_type: BASE,
    level: Level::Depth { depth: 1 },
    limit: 12,
    repetition: false,
};

/// Plays that game.
fn play_back(alloc: Global, setup: Setup) -> Result<Played<Status>, AllocError>
    requires { IsSetup setup }
{
    let white = said_by(alloc, &BACK_TWICE, 0)?;
    let black = said_by(alloc, &BACK_TWICE, 1)?;
    let said = [in_sevens(white.as_slice()), in_sevens(black.as_slice())];
    let spawner = spawner_of(alloc, links_of(alloc, &said)?, 0)?;
    play_with(alloc, spawner, setup, &mut StepClock::new(0, 1), 0)
}

#[test]
fn a_position_that_stands_for_the_third_time_draws(rt: HostRuntime) -> Result<(), Fail> {
    let seen = play_back(rt.alloc(), WITH_RULE)?;
    let text = b"Base;Draw;White[7];wA1;bA1 wA1-;wQ -wA1;bQ bA1-;\
                 wQ \\wA1;bQ bA1/;wQ -wA1;bQ bA1-;\
                 wQ \\wA1;bQ bA1/;wQ -wA1;bQ bA1-\n\
                 result Draw\n"
        .as_slice();
    expect_seen(&rt, &seen, Status::Done, text, 2);
    Ok(())
}

#[test]
fn it_does_not_where_the_rule_is_switched_off(rt: HostRuntime) -> Result<(), Fail> {
    let seen = play_back(rt.alloc(), WITHOUT_RULE)?;
    let text = b"Base;InProgress;White[7];wA1;bA1 wA1-;wQ -wA1;bQ bA1-;\
                 wQ \\wA1;bQ bA1/;wQ -wA1;bQ bA1-;\
                 wQ \\wA1;bQ bA1/;wQ -wA1;bQ bA1-\n\
                 limit 12\n"
        .as_slice();
    expect_seen(&rt, &seen, Status::Done, text, 2);
    Ok(())
}
