//! Makes a game from a number, and writes about it.

ghost use Rattle.std.specs.Prelude.{◌≡◌, ◌≤◌, length, IfOk};
ghost use Rattle.io_edge.specs.Outside.{HasCause};
ghost use Rattle.hive_model.specs.Histories.{position};
ghost use Rattle.grow_game.specs.Growing.{full_type, start, grown_moves, choices, TellsBest};
ghost use Rattle.grow_command.specs.Text.{grow_text};
ghost use Rattle.grow_command.specs.Runs.{GrowRun};

use crate::texts::text_about;
use command_runs::Status;
use deepening::Searcher;
use grow_game::Grown;
use hive_model::{Game, MoveStack, ReplyText};
use io_edge::{Sink, write_all};
use std::alloc::{AllocError, Global};

/// How many positions the table of the one-ply search keeps.
const TABLE_ENTRIES: u32 = 16;

/// The game that the seed makes, with what a one-ply search needs.
fn made<G: Game + Drop>(alloc: Global, seed: u64, plies: u32) -> Result<Grown<G>, AllocError>
    requires some { 1 ≤ plies }
    requires few { plies ≤ 1000 }
    ensures kind { IfOk result (λ r. (G.history r.game).game_type ≡ full_type) }
    ensures made { IfOk result (λ r. (G.history r.game).made ≡ grown_moves seed plies) }
    ensures moves { IfOk result (λ r. r.moves ≡ choices start (G.history r.game).made) }
    ensures undone { IfOk result (λ r. r.undone ≡ length (G.history r.game).made) }
    ensures best { IfOk result (λ r. TellsBest (position (G.history r.game)) r.best) }
{
    let mut searcher = Searcher::prepare(alloc, TABLE_ENTRIES, 1)?;
    let mut stack = MoveStack::new(alloc, 2)?;
    grow_game::grow(alloc, seed, plies, &mut searcher, &mut stack)
}

/// The text about the game that the seed makes.
fn text_of<G: Game + Drop>(alloc: Global, seed: u64, plies: u32) -> Result<ReplyText, AllocError>
    requires some { 1 ≤ plies }
    requires few { plies ≤ 1000 }
    ensures { IfOk result (λ t. t ≡ grow_text seed plies) }
{
    let grown: Grown<G> = made(alloc, seed, plies)?;
    text_about(alloc, seed, &grown)
}

/// Makes the game of a seed, with all three expansions and at most `plies` plies, from 1 to 1,000.
/// It writes eight lines, each ended by LF:
///
/// `seed` and the seed; `type Base+MLP`; `plies` and how many were played; `state` and the state of
/// the game; `moves` and the sum of the lengths of the lists from which its moves were drawn;
/// `undone` and how many plies gave back the key before them when they were undone, which is all;
/// `best` and the best move of depth 1 in the last position, as written there, or `best none` if
/// the game is over; `game` and the game in its written form.
///
/// The status is then `Done`. If memory ran out, nothing was written. If a write fails, the status
/// is `WriteFault`, and an initial part of the text was written, but not all. It ends in no other
/// way.
pub fn grow<K: Sink, G: Game + Drop>(alloc: Global, seed: u64, plies: u32, output: &mut K) -> Status
    requires some { 1 ≤ plies }
    requires few { plies ≤ 1000 }
    ensures run { GrowRun seed plies result (K.written output.old) (K.written output.new) }
    ensures writes { HasCause (result ≡ Status.WriteFault)
        (K.write_faults output.old) (K.write_faults output.new) }
{
    let Ok(text) = text_of::<G>(alloc, seed, plies) else {
        return Status::Memory;
    };
    if write_all(output, text.items()) {
        Status::Done
    } else {
        Status::WriteFault
    }
}
