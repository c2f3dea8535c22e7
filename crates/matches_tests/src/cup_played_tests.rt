//! Tests of `cup`: games of two engines over links in memory.

mod meeting;

ghost use Rattle.std.specs.Prelude.{◌≡◌, map, IfOk};
ghost use Rattle.cup.specs.Cup.{pairings};
ghost use Rattle.cup.specs.Played.{pairing};

use cup::{CupJob, FreeCupGate, Pairing, Standing, run_cup, standings_of};
use hive_model::{Colour, GameType};
use io_edge::{Link, MemLink};
use match_core::{Cause, Level, Setup, Verdict};
use meeting::{Meeting, MeetingLink};
use memory_sides::MemSetting;
use plain_game::PlainGame;
use std::alloc::{AllocError, Global};
use std::test::Fail;

const ONE_PLY: Setup = Setup {
    game_type: GameType {
        mosquito: false,
        ladybug: false,
        pillbug: false,
    },
    level: Level::Depth { depth: 1 },
    limit: 1,
    repetition: false,
};

/// The cup of two engines. In its first game white plays a move, and in its second one white ends.
fn cup_of_two(alloc: Global) -> Result<Vec<CupJob<MemLink, PlainGame>>, AllocError>
    ensures { IfOk result (λ jobs. map pairing jobs.items ≡ pairings 2) }
{
    let mut jobs = Vec::new(alloc);
    let a = MemSetting::of(b"id A\nok\nok\nwS1\nok\nok\n").link(alloc)?;
    let b = MemSetting::of(b"id B\nok\nok\nok\n").link(alloc)?;
    jobs.push(CupJob::new(Pairing { white: 1, black: 2 }, a, b, ONE_PLY))?;
    let b = MemSetting::of(b"").link(alloc)?;
    let a = MemSetting::of(b"id A\nok\n").link(alloc)?;
    jobs.push(CupJob::new(Pairing { white: 2, black: 1 }, b, a, ONE_PLY))?;
    Ok(jobs)
}

/// The verdict of the game at this place.
fn verdict_at<L: Link>(jobs: &[CupJob<L, PlainGame>], place: usize) -> Option<&Verdict> {
    jobs.get(place)?.referee()?.verdict()
}

#[test]
fn two_engines_play_two_games(rt: HostRuntime) -> Result<(), Fail> {
    let alloc = rt.alloc();
    let mut jobs = cup_of_two(alloc)?;
    assert!(rt; verdict_at(&jobs, 0).is_none());
    run_cup(&rt, alloc, &mut jobs, &FreeCupGate)?;
    assert!(rt; matches!(verdict_at(&jobs, 0), Some(Verdict::Limit)));
    assert!(rt;
        matches!(
            verdict_at(&jobs, 1),
            Some(Verdict::Forfeit {
                side: Colour::White,
                cause: Cause::Ended,
            })
        )
    );
    let list = standings_of(alloc, &jobs, 2)?;
    let expected = [
        Standing {
            engine: 1,
            points: 3,
            games: 2,
        },
        Standing {
            engine: 2,
            points: 1,
            games: 2,
        },
    ];
    assert_eq!(rt; list.items(), expected.as_slice());
    Ok(())
}

/// The links to white and to black of a game of one ply, at this place. White's move comes once the
/// other game has reached it too.
fn links_that_meet<'a>(
    alloc: Global,
    game: usize,
    meeting: &'a Meeting,
) -> Result<(MeetingLink<'a>, MeetingLink<'a>), AllocError> {
    let link = MemSetting::of(b"id A\nok\nok\nwS1\nok\nok\n")
        .cut(&[1])
        .link(alloc)?;
    let reads = b"id A\nok\nok\n".len();
    let says = MeetingLink::meeting(link, game, reads, meeting);
    let hears = MemSetting::of(b"id B\nok\nok\nok\n").link(alloc)?;
    Ok((says, MeetingLink::alone(hears, meeting)))
}

/// The cup of two engines, of one ply in each game, over links that meet.
fn cup_that_meets<'a>(
    alloc: Global,
    meeting: &'a Meeting,
) -> Result<Vec<CupJob<MeetingLink<'a>, PlainGame>>, AllocError>
    ensures { IfOk result (λ jobs. map pairing jobs.items ≡ pairings 2) }
{
    let mut jobs = Vec::new(alloc);
    let (a, b) = links_that_meet(alloc, 0, meeting)?;
    jobs.push(CupJob::new(Pairing { white: 1, black: 2 }, a, b, ONE_PLY))?;
    let (b, a) = links_that_meet(alloc, 1, meeting)?;
    jobs.push(CupJob::new(Pairing { white: 2, black: 1 }, b, a, ONE_PLY))?;
    Ok(jobs)
}

#[test]
fn two_games_meet_before_they_begin(rt: HostRuntime) -> Result<(), Fail> {
    let meeting = Meeting::new();
    let mut jobs = cup_of_two(rt.alloc())?;
    run_cup(&rt, rt.alloc(), &mut jobs, &meeting)?;
    for game in 0..2usize {
        assert!(rt; meeting.has_met(game), "the game at place {game}");
    }
    Ok(())
}

#[test]
fn two_games_meet_in_their_midst(rt: HostRuntime) -> Result<(), Fail> {
    let meeting = Meeting::new();
    let mut jobs = cup_that_meets(rt.alloc(), &meeting)?;
    run_cup(&rt, rt.alloc(), &mut jobs, &FreeCupGate)?;
    for game in 0..2usize {
        assert!(rt; meeting.has_met(game), "the game at place {game}");
        assert!(rt; matches!(verdict_at(&jobs, game), Some(Verdict::Limit)));
    }
    Ok(())
}
