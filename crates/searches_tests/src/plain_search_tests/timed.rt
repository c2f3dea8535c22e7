//! Searches as deep as the time allows.

ghost use Rattle.std.specs.Prelude.{◌≤◌};

use crate::plain_search_tests::BASE;
use crate::plain_search_tests::beside::is_over;
use deepening::Searcher;
use hive_model::{Best, Game, MoveStack, Timed};
use io_edge::StepClock;
use plain_game::PlainGame;
use search_core::{Node, Ticker, Window, Workspace, search};
use std::alloc::{AllocError, Global};
use std::test::Fail;
use value_table::ValueTable;

/// What a searcher answers in this time, by a clock that advances one millisecond at each reading;
/// `None` if the game cannot go on.
fn in_time(
    alloc: Global,
    game: &mut PlainGame,
    budget: u64,
) -> Result<Option<(Best, Timed)>, AllocError>
    requires { budget ≤ 1000 }
{
    if game.plies() > 100 || is_over(game) {
        return Ok(None);
    }
    game.reserve(64)?;
    let mut searcher = Searcher::prepare(alloc, 1024, 64)?;
    let mut clock = StepClock::new(100, 1);
    Ok(Some(searcher.best_in(game, budget, &mut clock)))
}

#[test]
fn no_time_is_enough_for_one_ply(rt: HostRuntime) -> Result<(), Fail> {
    let mut game = PlainGame::opening(rt.alloc(), BASE)?;
    let (best, timed) = in_time(rt.alloc(), &mut game, 0)?.ok_or("the opening")?;
    assert_eq!(rt; best.value, 0);
    assert_eq!(rt;
        timed,
        Timed {
            depth: 1,
            budget: 0,
            started: 100,
            stopped: 101
        }
    );
    Ok(())
}

#[test]
fn more_time_is_for_more_plies(rt: HostRuntime) -> Result<(), Fail> {
    let mut game = PlainGame::opening(rt.alloc(), BASE)?;
    let (best, timed) = in_time(rt.alloc(), &mut game, 3)?.ok_or("the opening")?;
    assert!(rt; timed.depth >= 2);
    assert_eq!(rt; (timed.budget, timed.started), (3, 100));
    assert_eq!(rt; timed.stopped, 103);
    assert!(rt; timed.depth != 2 || best.value == 10);
    Ok(())
}

/// The reading of the clock at which the search of the opening stopped: the first one at or past
/// this time.
fn left_at(alloc: Global, budget: u64) -> Result<Option<u64>, AllocError>
    requires { budget ≤ 1000 }
{
    let mut game = PlainGame::opening(alloc, BASE)?;
    let Some((_, timed)) = in_time(alloc, &mut game, budget)? else {
        return Ok(None);
    };
    Ok(Some(timed.stopped))
}

#[test]
fn the_first_reading_past_the_time_is_the_last(rt: HostRuntime) -> Result<(), Fail> {
    assert_eq!(rt; left_at(rt.alloc(), 1)?, Some(101));
    assert_eq!(rt; left_at(rt.alloc(), 2)?, Some(102));
    Ok(())
}

/// How a search of the opening, six plies deep and with this deadline, ends. The clock reads 0
/// first and advances one millisecond at each reading. It answers whether the search was stopped,
/// how many moves were played, and the last reading of the clock.
fn searched_until(alloc: Global, deadline: u64) -> Result<(bool, u64, u64), AllocError> {
    let mut game = PlainGame::opening(alloc, BASE)?;
    game.reserve(6)?;
    let stack = MoveStack::new(alloc, 6)?;
    let table = ValueTable::new(alloc, 1024)?;
    let mut work = Workspace::new(stack, table, Ticker::until(deadline));
    let mut clock = StepClock::new(0, 1);
    let window = Window {
        alpha: -1_000_100,
        beta: 1_000_100,
    };
    let before = game.played();
    let node = Node { depth: 6, window };
    let found = search(&mut game, node, &mut work, &mut clock);
    let plays = game.played().saturating_sub(before);
    Ok((found.is_none(), plays, work.ticker.latest()))
}

#[test]
fn search_stops_at_the_play_at_which_the_time_is_over(rt: HostRuntime) -> Result<(), Fail> {
    assert_eq!(rt; searched_until(rt.alloc(), 1)?, (true, 512, 1));
    Ok(())
}
