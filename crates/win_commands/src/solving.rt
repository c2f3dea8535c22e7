//! Whether the side to move can force a win, with a proof.

ghost use Rattle.std.specs.Prelude.{◌≡◌, ◌≤◌, ◌++◌, false};
ghost use Rattle.io_edge.specs.Outside.{HasCause};
ghost use Rattle.hive_model.specs.Histories.{position};
ghost use Rattle.command_runs.specs.Answered.{WritesAnswer};
ghost use Rattle.command_runs.specs.Runs.{RunsAs, side_of};
ghost use Rattle.certificate_indices.specs.Writing.{Wrote};
ghost use Rattle.win_commands.specs.Text.{solution_lines, solution_text};
ghost use Rattle.win_commands.specs.Runs.{SolveRun};

use crate::texts::head_of;
use command_runs::{Status, read_one_game, tell_none};
use hive_model::Game;
use io_edge::{Sink, Source, write_all};
use std::alloc::Global;
use win_solver::Solver;

/// How many positions the table of a search keeps.
const TABLE_ENTRIES: u32 = 65_536;

/// Writes the head, and then the indices of the least solution. The answer is whether everything
/// was written.
fn write_solution<K: Sink, G: Game>(
    head: &[u8],
    solver: &mut Solver,
    game: &mut G,
    plies: u32,
    output: &mut K,
) -> bool
    requires prepared { plies ≤ solver.old }
    requires spare { plies ≤ (G.history game.old).spare }
    ensures wrote { Wrote result
        (head.now ++ solution_lines (position (G.history game.old)) plies)
        (K.written output.old) (K.written output.new) }
    ensures cause { HasCause (result ≡ false)
        (K.write_faults output.old) (K.write_faults output.new) }
{
    if !write_all(output, head) {
        return false;
    }
    solver.write_indices(game, plies, output)
}

/// Writes the solution of a game.
fn tell_solution<K: Sink, G: Game + Drop>(
    alloc: Global,
    mut game: G,
    plies: u32,
    output: &mut K,
) -> Status
    requires some { 1 ≤ plies }
    requires few { plies ≤ 16 }
    requires spare { plies ≤ (G.history game).spare }
    ensures told { WritesAnswer (solution_text (G.history game).game_type
        (G.history game).made plies)
        result (K.written output.old) (K.written output.new) }
    ensures cause { HasCause (result ≡ Status.WriteFault)
        (K.write_faults output.old) (K.write_faults output.new) }
{
    let Ok(mut solver) = Solver::prepare(alloc, TABLE_ENTRIES, plies) else {
        return Status::Memory;
    };
    let answer = solver.solve(&mut game, plies);
    let Ok(head) = head_of(alloc, &game, plies, answer) else {
        return Status::Memory;
    };
    if write_solution(head.items(), &mut solver, &mut game, plies, output) {
        Status::Done
    } else {
        Status::WriteFault
    }
}

/// Reads the one game of the input. It writes whether the side to move can force a win within
/// `plies` plies, from 1 to 16, and the least indices that show it. The lines are
/// `hive-solution 1`, the game in its written form, `plies N`, `answer yes` or `answer no`, and the
/// indices, one a line. The status is then `Done`. If the input is not exactly one game that is not
/// over, one line that begins with `bad` says why, and the status is `BadInput`. If a read fails,
/// the input is full or memory runs out, the run ends with nothing written.
pub fn solve<S: Source, K: Sink, G: Game + Drop>(
    alloc: Global,
    plies: u32,
    input: &mut S,
    output: &mut K,
) -> Status
    requires some { 1 ≤ plies }
    requires few { plies ≤ 16 }
    ensures { RunsAs (SolveRun plies) result
        (side_of S.rest S.read_faults input.old) (side_of K.written K.write_faults output.old)
        (side_of S.rest S.read_faults input.new) (side_of K.written K.write_faults output.new) }
{
    match read_one_game::<S, G>(alloc, input, plies) {
        Ok(game) => tell_solution(alloc, game, plies, output),
        Err(none) => tell_none(none, output),
    }
}
