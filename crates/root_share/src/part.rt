//! The workers, run by halving their list.

ghost use Rattle.std.specs.Prelude.{◌+◌, length};
ghost use Rattle.std.specs.Thread.{IsSync, IsSend};
ghost use Rattle.root_share.specs.Part.{MayRun, HaveRun};

use crate::candidate::{Candidate, better};
use crate::gate::Gate;
use crate::word::{BoundSeat, halve, meet};
use crate::work::RootWork;
use crate::worker::{Worker, run_one};
use hive_model::Game;
use std::thread::{Threads, join_mut};

/// The work at a root, and the runtime that provides threads for it.
#[derive(Drop)]
pub struct Team<'r, 'a, R, G: Game, T> {
    pub rt: &'r R,
    pub work: RootWork<'a, G, T>,
}

/// Runs the workers of the parts from `from` on, each on its own children. A child is a move of the
/// root, named by its index on the root's list.
#[cycle(parts)]
pub fn run_parts<R: Threads + Sync, G: Game + Send, T: Gate + Sync>(
    team: &Team<'_, '_, R, G, T>,
    from: u32,
    seat: &mut BoundSeat,
    workers: &mut [Worker<G>],
) -> Option<Candidate>
    requires may { MayRun G.history team.now.work from seat.old workers.old }
    ensures ran { HaveRun G.history G.played team.now.work from seat.old seat.new workers.old
        workers.new result }
{
    if workers.len() == 1 {
        return run_one(&team.work, from, seat, &mut workers[0]);
    }
    let low = workers.len() / 2;
    let mut other = halve(team.work.word, seat);
    let (front, back) = workers.split_at_mut(low);
    let (a, b) = run_halves(team, from, seat, &mut other, front, back);
    meet(team.work.word, seat, other);
    better(a, b)
}

/// Runs both halves, each in its own thread if one can be had.
#[cycle(parts)]
fn run_halves<R: Threads + Sync, G: Game + Send, T: Gate + Sync>(
    team: &Team<'_, '_, R, G, T>,
    from: u32,
    seat: &mut BoundSeat,
    other: &mut BoundSeat,
    front: &mut [Worker<G>],
    back: &mut [Worker<G>],
) -> (Option<Candidate>, Option<Candidate>)
    requires front { MayRun G.history team.now.work from seat.old front.old }
    requires back { MayRun G.history team.now.work (from + length front.old) other.old back.old }
    ensures front { HaveRun G.history G.played team.now.work from seat.old seat.new front.old
        front.new result.0 }
    ensures back { HaveRun G.history G.played team.now.work (from + length front.old) other.old
        other.new back.old back.new result.1 }
{
    let up = from + front.len() as u32;
    join_mut(
        team.rt,
        &mut || -> Option<Candidate>
            requires { IsSync R.row × IsSync T.row × IsSend G.row
                × MayRun G.history team.now.work from seat.now front.now }
            ensures { HaveRun G.history G.played team.entry.now.work from seat.entry.now
                seat.exit.now front.entry.now front.exit.now result }
        { run_parts(team, from, seat, front) },
        &mut || -> Option<Candidate>
            requires { IsSync R.row × IsSync T.row × IsSend G.row
                × MayRun G.history team.now.work up other.now back.now }
            ensures { HaveRun G.history G.played team.entry.now.work up other.entry.now
                other.exit.now back.entry.now back.exit.now result }
        { run_parts(team, up, other, back) },
    )
}
