//! C functions that answer about the game that a line is.

ghost use Rattle.std.specs.Prelude.{◌≡◌, ◌≢◌, Ok};
ghost use Rattle.hive_library.specs.Rooms.{Answers, Puts};
ghost use Rattle.hive_library.specs.Games.{after_answer, best_answer, moves_answer, written_answer};
ghost use Rattle.hive_library.specs.Version.{version};

use crate::games::{after, best_move, legal_moves, written};
use crate::rooms::{give, put};
use fast_game::FastGame;
use std::alloc::Global;

/// The name and the version of the library.
#[tactic(auto, using(crate::proofs::AnswerLemmas::put_or_same))]
#[unsafe(no_mangle)]
pub extern "C" fn hive_library_version(room: &mut [u8], needed: &mut usize) -> u32
    ensures puts { Puts version result room.old room.new needed.new }
    ensures untouched { result ≢ 0 → room.new ≡ room.old }
{
    put(b"HiveReferee 1.0", room, needed)
}

/// The written form of the game that the line is.
#[tactic(auto, using(crate::proofs::AnswerLemmas::answered, crate::proofs::AnswerLemmas::kept))]
#[unsafe(no_mangle)]
pub extern "C" fn hive_library_written(
    alloc: Global,
    line: &[u8],
    room: &mut [u8],
    needed: &mut usize,
) -> u32
    ensures answers { Answers (written_answer line.now) result room.old room.new needed.new }
    ensures untouched { result ≢ 0 → room.new ≡ room.old }
{
    give(written::<FastGame>(alloc, line), room, needed)
}

/// The legal moves of the game that the line is, written and joined by semicolons.
#[tactic(auto, using(crate::proofs::AnswerLemmas::answered, crate::proofs::AnswerLemmas::kept))]
#[unsafe(no_mangle)]
pub extern "C" fn hive_library_moves(
    alloc: Global,
    line: &[u8],
    room: &mut [u8],
    needed: &mut usize,
) -> u32
    ensures answers { Answers (moves_answer line.now) result room.old room.new needed.new }
    ensures untouched { result ≢ 0 → room.new ≡ room.old }
{
    give(legal_moves::<FastGame>(alloc, line), room, needed)
}

/// The written form of the game that the line is, after the move that the words denote.
#[tactic(auto, using(crate::proofs::AnswerLemmas::answered, crate::proofs::AnswerLemmas::kept))]
#[unsafe(no_mangle)]
pub extern "C" fn hive_library_after(
    alloc: Global,
    line: &[u8],
    words: &[u8],
    room: &mut [u8],
    needed: &mut usize,
) -> u32
    ensures answers { Answers (after_answer line.now words.now) result room.old room.new
        needed.new }
    ensures untouched { result ≢ 0 → room.new ≡ room.old }
{
    give(after::<FastGame>(alloc, line, words), room, needed)
}

/// The best move of the game that the line is, from 1 to 64 plies deep, written.
#[tactic(auto, using(crate::proofs::AnswerLemmas::answered, crate::proofs::AnswerLemmas::kept))]
#[unsafe(no_mangle)]
pub extern "C" fn hive_library_best(
    alloc: Global,
    line: &[u8],
    depth: u32,
    room: &mut [u8],
    needed: &mut usize,
) -> u32
    ensures answers { Answers (best_answer line.now depth) result room.old room.new needed.new }
    ensures untouched { result ≢ 0 → room.new ≡ room.old }
{
    give(best_move::<FastGame>(alloc, line, depth), room, needed)
}
