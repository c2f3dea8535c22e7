//! Counts the lists of legal moves with which the game of the input can go on, by several workers.
ghost use Rattle.std.specs.Prelude.{◌≡◌, ℕ, ◌<◌, ◌≤◌, false, length, take};
ghost use Rattle.std.specs.Bool.{OnTrue, OnFalse};
ghost use Rattle.io_edge.specs.Outside.{HasCause, behind};
ghost use Rattle.hive_model.specs.Histories.{position};
ghost use Rattle.command_runs.specs.Answered.{WritesAnswer};
ghost use Rattle.command_runs.specs.Runs.{RunsAs, side_of};
ghost use Rattle.count_command.specs.Count.{CountRun, count_text};

use crate::counts::count_line;
use command_runs::{Status, read_one_game, tell_none};
use count_share::CountTeam;
use hive_model::Game;
use io_edge::{Sink, Source, write_all};
use std::alloc::Global;
use std::thread::Threads;

/// Writes the line for each number of plies from 1 on as soon as it is known. The answer is whether
/// all lines were written.
fn write_shared<R: Threads + Sync, K: Sink, G: Game + Send + Drop>(
    rt: &R,
    team: &mut CountTeam<G>,
    plies: u32,
    output: &mut K,
) -> bool
    requires some { 1 ≤ plies }
    requires few { plies ≤ team.old.plies }
    ensures all { OnTrue result (K.written output.new
        ≡ behind (K.written output.old) (count_text team.old.root plies)) }
    ensures part { OnFalse result ((n : ℕ) × (n < length (count_text team.old.root plies))
        × (K.written output.new ≡ behind (K.written output.old)
        (take n (count_text team.old.root plies)))) }
    ensures cause { HasCause (result ≡ false) (K.write_faults output.old)
        (K.write_faults output.new) }
{
    for n in 1..=plies {
        let line = count_line(n, team.lines(rt, n));
        if !write_all(output, line.as_str().as_bytes()) {
            return false;
        }
    }
    true
}

/// Writes the counts of a game, found by so many workers.
fn tell_shared<R: Threads + Sync, K: Sink, G: Game + Send + Drop>(
    rt: &R,
    alloc: Global,
    game: G,
    plies: u32,
    workers: u32,
    output: &mut K,
) -> Status
    requires some { 1 ≤ plies }
    requires few { plies ≤ 8 }
    requires short { length (G.history game).made ≤ 5000 }
    requires spare { plies ≤ (G.history game).spare }
    ensures told { WritesAnswer (count_text (position (G.history game)) plies) result
        (K.written output.old) (K.written output.new) }
    ensures cause { HasCause (result ≡ Status.WriteFault) (K.write_faults output.old)
        (K.write_faults output.new) }
{
    let Ok(mut team) = CountTeam::new(alloc, game, plies, workers) else {
        return Status::Memory;
    };
    if write_shared(rt, &mut team, plies, output) {
        Status::Done
    } else {
        Status::WriteFault
    }
}

/// Does what `count` does, with 1 to 16 workers that count at once if threads can be had. What is
/// written does not depend on how many they are, nor on how their threads run. All memory for the
/// count is taken before the first line is written.
pub fn count_shared<R: Threads + Sync, S: Source, K: Sink, G: Game + Send + Drop>(
    rt: &R,
    alloc: Global,
    plies: u32,
    workers: u32,
    input: &mut S,
    output: &mut K,
) -> Status
    requires some { 1 ≤ plies }
    requires few { plies ≤ 8 }
    ensures { RunsAs (CountRun plies) result
        (side_of S.rest S.read_faults input.old) (side_of K.written K.write_faults output.old)
        (side_of S.rest S.read_faults input.new) (side_of K.written K.write_faults output.new) }
{
    match read_one_game::<S, G>(alloc, input, plies) {
        Ok(game) => tell_shared(rt, alloc, game, plies, workers, output),
        Err(none) => tell_none(none, output),
    }
}
