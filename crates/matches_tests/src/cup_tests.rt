//! A cup of three engines, and the points of verdicts.

use cup::{Pairing, Standing, pairings, points_of, standings};
use hive_model::{Colour, State};
use match_core::{Cause, Verdict};
use std::test::Fail;

#[test]
fn everyone_plays_everyone(rt: HostRuntime) -> Result<(), Fail> {
    let games = pairings(rt.alloc(), 3)?;
    let expected = [(1, 2), (1, 3), (2, 1), (2, 3), (3, 1), (3, 2)].map(|(white, black)| Pairing {
        white,
        black,
    });
    assert_eq!(rt; games.as_slice(), expected.as_slice());
    Ok(())
}

#[test]
fn the_winner_gets_both_points(rt: HostRuntime) -> Result<(), Fail> {
    for (state, white, black) in [
        (State::WhiteWins, 2, 0),
        (State::BlackWins, 0, 2),
        (State::Draw, 1, 1),
    ] {
        let verdict = Verdict::Rules { state };
        assert_eq!(rt; points_of(&verdict, Colour::White), white);
        assert_eq!(rt; points_of(&verdict, Colour::Black), black);
    }
    assert_eq!(rt; points_of(&Verdict::Limit, Colour::Black), 1);
    let forfeit = Verdict::Forfeit {
        side: Colour::White,
        cause: Cause::Ended,
    };
    assert_eq!(rt; points_of(&forfeit, Colour::White), 0);
    assert_eq!(rt; points_of(&forfeit, Colour::Black), 2);
    Ok(())
}

#[test]
fn equal_engines_stand_by_number(rt: HostRuntime) -> Result<(), Fail> {
    let alloc = rt.alloc();
    let mut verdicts = Vec::new(alloc);
    verdicts.push(Verdict::Limit)?;
    verdicts.push(Verdict::Rules {
        state: State::BlackWins,
    })?;
    verdicts.push(Verdict::Rules { state: State::Draw })?;
    verdicts.push(Verdict::Forfeit {
        side: Colour::White,
        cause: Cause::Ended,
    })?;
    verdicts.push(Verdict::Limit)?;
    verdicts.push(Verdict::Limit)?;
    let list = standings(alloc, verdicts.as_slice(), 3)?;
    let expected = [
        Standing {
            engine: 3,
            points: 6,
            games: 4,
        },
        Standing {
            engine: 1,
            points: 3,
            games: 4,
        },
        Standing {
            engine: 2,
            points: 3,
            games: 4,
        },
    ];
    assert_eq!(rt; list.items(), expected.as_slice());
    Ok(())
}
