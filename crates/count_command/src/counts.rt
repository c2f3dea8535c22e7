//! Counts the lists of legal moves with which the game of the input can go on.
ghost use Rattle.std.specs.Prelude.{◌≡◌, ℕ, ◌<◌, ◌≤◌, false, length, take};
ghost use Rattle.std.specs.Bool.{OnTrue, OnFalse};
ghost use Rattle.io_edge.specs.Outside.{HasCause, behind};
ghost use Rattle.hive_model.specs.Histories.{position};
ghost use Rattle.command_runs.specs.Answered.{WritesAnswer};
ghost use Rattle.command_runs.specs.Runs.{RunsAs, side_of};
ghost use Rattle.count_command.specs.Count.{CountRun, count_line_of, count_text};

use arrayvec::ArrayString;
use command_runs::{Status, read_one_game, tell_none};
use count_share::room_for;
use hive_model::{Game, MoveStack};
use io_edge::{Sink, Source, write_all};
use itoa::Buffer;
use plain_search::{MoveCounts, count_lines};
use std::alloc::Global;

/// The line for a number of plies and a number of lists, with its LF.
pub(crate) fn count_line(plies: u32, lists: u128) -> ArrayString<96>
    ensures { result.bytes ≡ count_line_of plies lists }
{
    let mut line = ArrayString::new();
    let mut buffer = Buffer::new();
    line.push_str(buffer.format(plies));
    line.push_str(" ");
    line.push_str(buffer.format(lists));
    line.push_str("\n");
    line
}

/// Writes the line for each number of plies from 1 on as soon as it is known. The answer is whether
/// all lines were written.
fn write_counts<K: Sink, G: Game>(
    game: &mut G,
    plies: u32,
    stack: &mut MoveStack,
    counts: &mut MoveCounts,
    output: &mut K,
) -> bool
    requires some { 1 ≤ plies }
    requires few { plies ≤ 8 }
    requires spare { plies ≤ (G.history game.old).spare }
    requires room { plies ≤ stack.old.free }
    ensures all { OnTrue result (K.written output.new
        ≡ behind (K.written output.old) (count_text (position (G.history game.old)) plies)) }
    ensures part { OnFalse result ((n : ℕ)
        × (n < length (count_text (position (G.history game.old)) plies))
        × (K.written output.new ≡ behind (K.written output.old)
        (take n (count_text (position (G.history game.old)) plies)))) }
    ensures cause { HasCause (result ≡ false) (K.write_faults output.old)
        (K.write_faults output.new) }
{
    for n in 1..=plies {
        let line = count_line(n, count_lines(game, n, stack, counts));
        if !write_all(output, line.as_str().as_bytes()) {
            return false;
        }
    }
    true
}

/// Writes the counts of a game.
fn tell_counts<K: Sink, G: Game + Drop>(
    alloc: Global,
    mut game: G,
    plies: u32,
    output: &mut K,
) -> Status
    requires some { 1 ≤ plies }
    requires few { plies ≤ 8 }
    requires spare { plies ≤ (G.history game).spare }
    ensures told { WritesAnswer (count_text (position (G.history game)) plies) result
        (K.written output.old) (K.written output.new) }
    ensures cause { HasCause (result ≡ Status.WriteFault) (K.write_faults output.old)
        (K.write_faults output.new) }
{
    let Ok(mut stack) = MoveStack::new(alloc, plies) else {
        return Status::Memory;
    };
    let Ok(mut counts) = MoveCounts::new(alloc, room_for(&game, plies)) else {
        return Status::Memory;
    };
    if write_counts(&mut game, plies, &mut stack, &mut counts, output) {
        Status::Done
    } else {
        Status::WriteFault
    }
}

/// Reads the one game of the input. For each number of plies n, from 1 to at most 8, it writes how
/// many lists of n legal moves the game can go on with. Each line has the number of plies, a space
/// and the count, and is written as soon as it is known. The status is then `Done`. If the input is
/// not exactly one game that is not over, one line that begins with `bad` says why, and the status
/// is `BadInput`. If a read fails, the input is full or memory runs out, the run ends with nothing
/// written.
pub fn count<S: Source, K: Sink, G: Game + Drop>(
    alloc: Global,
    plies: u32,
    input: &mut S,
    output: &mut K,
) -> Status
    requires some { 1 ≤ plies }
    requires few { plies ≤ 8 }
    ensures { RunsAs (CountRun plies) result
        (side_of S.rest S.read_faults input.old) (side_of K.written K.write_faults output.old)
        (side_of S.rest S.read_faults input.new) (side_of K.written K.write_faults output.new) }
{
    match read_one_game::<S, G>(alloc, input, plies) {
        Ok(game) => tell_counts(alloc, game, plies, output),
        Err(none) => tell_none(none, output),
    }
}
