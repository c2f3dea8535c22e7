//! Sessions with two workers.

use hive_model::TimedList;
use io_edge::StepClock;
use plain_game::PlainGame;
use root_share::{FreeGate, Gate};
use std::alloc::{AllocError, Global};
use std::sync::atomic::{AtomicBool, Ordering};
use std::test::Fail;
use std::thread::Threads;
use uhp_session::{LineIn, Reply, Session};

/// From this line on a session has two workers.
const WORKERS: &str = "options set Workers 2";

/// Begins a game in which one move wins.
const GAME: &str = concat!(
    "newgame Base;InProgress;White[7];wS1;bS1 wS1-;wQ /wS1;bQ bS1-;wQ /bS1;bQ wQ-;",
    "wG1 -wS1;bG1 bS1-;wB1 /wQ;bB1 bQ-;wA1 -wB1;bA1 /bB1",
);

/// The reply to a search for its best move.
const BEST: &[u8] = b"wA1 wB1-\nok\n";

/// How often a worker looks for the other.
const LOOKS: u32 = 1_000_000_000;

/// Before its first move of the root each of two workers says that it is here, and then looks
/// whether the other is.
#[derive(Drop)]
struct Meeting {
    here: [AtomicBool; 2],
    saw: [AtomicBool; 2],
}

impl Gate for Meeting {
    fn before_child(&self, worker: u32, child: u32) {
        if child >= 2 || worker >= 2 {
            return;
        }
        self.here[worker as usize].store(true, Ordering::SeqCst);
        for _ in 0..LOOKS {
            if self.here[1 - worker as usize].load(Ordering::SeqCst) {
                self.saw[worker as usize].store(true, Ordering::SeqCst);
                return;
            }
        }
    }
}

/// A session, its clock and the entries that its searches append.
#[derive(Drop)]
struct Desk {
    session: Session<PlainGame>,
    clock: StepClock,
    timed: TimedList,
}

/// The reply to a line, which is not too long, with this gate.
fn reply_to<R: Threads + Sync, T: Gate + Sync>(
    rt: &R,
    alloc: Global,
    desk: &mut Desk,
    line: &str,
    gate: &T,
) -> Result<Reply, AllocError> {
    if line.len() > 65_536 {
        return Ok(Reply::Exit);
    }
    let text = LineIn::Text(line.as_bytes());
    let Desk {
        session,
        clock,
        timed,
    } = desk;
    session.command(rt, alloc, text, clock, timed, gate)
}

/// The reply to the last of the lines of one session, with this gate.
fn last_reply<R: Threads + Sync, T: Gate + Sync>(
    rt: &R,
    alloc: Global,
    lines: &[&str],
    gate: &T,
) -> Result<Reply, AllocError> {
    let mut desk = Desk {
        session: Session::new(),
        clock: StepClock::new(0, 1),
        timed: TimedList::new(alloc),
    };
    let mut reply = Reply::Exit;
    for line in lines {
        reply = reply_to(rt, alloc, &mut desk, line, gate)?;
    }
    Ok(reply)
}

/// Whether two replies are one text.
fn are_alike(one: &Reply, other: &Reply) -> bool {
    match (one, other) {
        (Reply::Text(one), Reply::Text(other)) => one.items() == other.items(),
        _ => false,
    }
}

/// Whether a reply is this text.
fn is_text(reply: &Reply, text: &[u8]) -> bool {
    match reply {
        Reply::Text(told) => told.items() == text,
        Reply::Exit => false,
    }
}

/// Whether a session of these lines, with this gate, answers the best move to the last of them.
fn tells_best<R: Threads + Sync, T: Gate + Sync>(
    rt: &R,
    alloc: Global,
    lines: &[&str],
    gate: &T,
) -> Result<bool, AllocError> {
    let reply = last_reply(rt, alloc, lines, gate)?;
    Ok(is_text(&reply, BEST))
}

#[test]
fn two_workers_meet(rt: HostRuntime) -> Result<(), Fail> {
    let gate = Meeting {
        here: [AtomicBool::new(false), AtomicBool::new(false)],
        saw: [AtomicBool::new(false), AtomicBool::new(false)],
    };
    let told = tells_best(&rt, rt.alloc(), &[WORKERS, GAME, "bestmove depth 1"], &gate)?;
    assert!(rt; told, "the best move of two workers");
    assert!(rt; gate.saw[0].load(Ordering::SeqCst), "the first worker");
    assert!(rt; gate.saw[1].load(Ordering::SeqCst), "the second worker");
    Ok(())
}

/// The second of two searches goes on with the searchers of the first.
#[test]
fn a_team_that_goes_on_tells_the_best_move_again(rt: HostRuntime) -> Result<(), Fail> {
    let lines = [WORKERS, GAME, "bestmove depth 1", "bestmove depth 1"];
    let told = tells_best(&rt, rt.alloc(), &lines, &FreeGate)?;
    assert!(rt; told, "the best move of a team that goes on");
    Ok(())
}

const WENT_ON: [&str; 5] = [
    WORKERS,
    GAME,
    "bestmove depth 2",
    "undo 1",
    "bestmove depth 2",
];

const NEW: [&str; 4] = [WORKERS, GAME, "undo 1", "bestmove depth 2"];

#[test]
fn a_team_that_goes_on_answers_as_a_new_one(rt: HostRuntime) -> Result<(), Fail> {
    let went_on = last_reply(&rt, rt.alloc(), &WENT_ON, &FreeGate)?;
    let new = last_reply(&rt, rt.alloc(), &NEW, &FreeGate)?;
    assert!(rt; are_alike(&went_on, &new), "the replies to the last line");
    Ok(())
}
