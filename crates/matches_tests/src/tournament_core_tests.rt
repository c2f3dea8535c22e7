//! A plan of three engines, a gauntlet, and standings with ties, all worked out by hand.

ghost use Rattle.tournament_core.specs.Schedules.{IsPlan};

use hive_model::Colour;
use std::alloc::{AllocError, Global};
use std::process::Abort;
use std::test::Fail;
use tournament_core::{Fixture, GameEnd, Plan, Standing, Tally, standings};

/// All games of a plan.
fn games_of(alloc: Global, plan: &Plan) -> Result<Vec<(u32, u32, u32)>, AllocError>
    requires valid { IsPlan plan.now }
{
    let mut games = Vec::new(alloc);
    for before in 0..plan.games() {
        let Fixture {
            opening,
            white,
            black,
        } = plan.fixture(before);
        games.push((opening, white, black))?;
    }
    Ok(games)
}

#[test]
fn everyone_meets_everyone_with_both_colours(rt: HostRuntime) -> Result<(), Fail> {
    let plan = Plan {
        engines: 3,
        rounds: 1,
        openings: 2,
        gauntlet: false,
    };
    let games = games_of(rt.alloc(), &plan)?;
    let expected = [
        (0, 1, 2),
        (0, 2, 1),
        (0, 1, 3),
        (0, 3, 1),
        (0, 2, 3),
        (0, 3, 2),
        (1, 1, 2),
        (1, 2, 1),
        (1, 1, 3),
        (1, 3, 1),
        (1, 2, 3),
        (1, 3, 2),
    ];
    assert_eq!(rt; games.as_slice(), expected.as_slice());
    Ok(())
}

#[test]
fn in_a_gauntlet_the_first_meets_the_others(rt: HostRuntime) -> Result<(), Fail> {
    let plan = Plan {
        engines: 3,
        rounds: 2,
        openings: 1,
        gauntlet: true,
    };
    let games = games_of(rt.alloc(), &plan)?;
    let expected = [
        (0, 1, 2),
        (0, 2, 1),
        (0, 1, 3),
        (0, 3, 1),
        (0, 1, 2),
        (0, 2, 1),
        (0, 1, 3),
        (0, 3, 1),
    ];
    assert_eq!(rt; games.as_slice(), expected.as_slice());
    Ok(())
}

#[test]
fn the_largest_tournament_is_not_listed(rt: HostRuntime) -> Result<(), Fail> {
    let plan = Plan {
        engines: 64,
        rounds: 10_000,
        openings: 100_000,
        gauntlet: false,
    };
    let games = plan.games();
    assert_eq!(rt; games, 4_032_000_000_000);
    assert!(rt; games > 0);
    let last = plan.fixture(games - 1);
    let expected = Fixture {
        opening: 99_999,
        white: 64,
        black: 63,
    };
    assert_eq!(rt; last, expected);
    Ok(())
}

/// Notes a game. Its opening does not matter here.
fn note(rt: &impl Abort, tally: &mut Tally, white: u32, black: u32, ended: GameEnd) {
    let engines = tally.engines();
    assert!(rt; 1 <= white && white <= engines);
    assert!(rt; 1 <= black && black <= engines);
    assert!(rt; white != black);
    assert!(rt; tally.games() < 4_398_046_511_104);
    let fixture = Fixture {
        opening: 0,
        white,
        black,
    };
    tally.note(fixture, ended);
}

const WHITE_WON: GameEnd = GameEnd {
    winner: Some(Colour::White),
    forfeited: false,
};

const BLACK_WON: GameEnd = GameEnd {
    winner: Some(Colour::Black),
    forfeited: false,
};

const WHITE_FORFEITED: GameEnd = GameEnd {
    winner: Some(Colour::Black),
    forfeited: true,
};

const DRAWN: GameEnd = GameEnd {
    winner: None,
    forfeited: false,
};

#[test]
fn who_beat_stronger_ones_stands_first(rt: HostRuntime) -> Result<(), Fail> {
    let alloc = rt.alloc();
    let mut tally = Tally::new(alloc, 4)?;
    note(&rt, &mut tally, 1, 4, WHITE_WON);
    note(&rt, &mut tally, 3, 2, BLACK_WON);
    note(&rt, &mut tally, 4, 3, WHITE_FORFEITED);
    let list = standings(alloc, &tally)?;
    let expected = [
        Standing {
            engine: 2,
            points: 2,
            games: 1,
            wins: 1,
            draws: 0,
            losses: 0,
            forfeits: 0,
            beaten: 2,
        },
        Standing {
            engine: 1,
            points: 2,
            games: 1,
            wins: 1,
            draws: 0,
            losses: 0,
            forfeits: 0,
            beaten: 0,
        },
        Standing {
            engine: 3,
            points: 2,
            games: 2,
            wins: 1,
            draws: 0,
            losses: 1,
            forfeits: 0,
            beaten: 0,
        },
        Standing {
            engine: 4,
            points: 0,
            games: 2,
            wins: 0,
            draws: 0,
            losses: 2,
            forfeits: 1,
            beaten: 0,
        },
    ];
    assert_eq!(rt; list.items(), expected.as_slice());
    Ok(())
}

#[test]
fn equal_ones_stand_by_number(rt: HostRuntime) -> Result<(), Fail> {
    let alloc = rt.alloc();
    let mut tally = Tally::new(alloc, 3)?;
    note(&rt, &mut tally, 3, 2, DRAWN);
    note(&rt, &mut tally, 3, 1, BLACK_WON);
    note(&rt, &mut tally, 2, 1, DRAWN);
    note(&rt, &mut tally, 1, 3, BLACK_WON);
    let list = standings(alloc, &tally)?;
    let expected = [
        Standing {
            engine: 1,
            points: 3,
            games: 3,
            wins: 1,
            draws: 1,
            losses: 1,
            forfeits: 0,
            beaten: 3,
        },
        Standing {
            engine: 3,
            points: 3,
            games: 3,
            wins: 1,
            draws: 1,
            losses: 1,
            forfeits: 0,
            beaten: 3,
        },
        Standing {
            engine: 2,
            points: 2,
            games: 2,
            wins: 0,
            draws: 2,
            losses: 0,
            forfeits: 0,
            beaten: 0,
        },
    ];
    assert_eq!(rt; list.items(), expected.as_slice());
    Ok(())
}
