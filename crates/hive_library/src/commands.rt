//! C functions that run the commands over a text.

ghost use Rattle.std.specs.Prelude.{◌≡◌, ◌≢◌, ℕ, List};
ghost use Rattle.io_edge.specs.Lines.{lines};
ghost use Rattle.hive_model.specs.declared.places.Move.{Move};
ghost use Rattle.certificate_text.specs.declared.head.Head.{Head};
ghost use Rattle.command_runs.specs.OneGame.{asked};
ghost use Rattle.certificate_commands.specs.Certifying.{certificates_of};
ghost use Rattle.certificate_commands.specs.Laws.{IsHeld, IsTrueClaim};
ghost use Rattle.certificate_commands.specs.Verdicts.{verdict};
ghost use Rattle.count_command.specs.Count.{counts_of};
ghost use Rattle.win_commands.specs.Laws.{HoldsSolution, IsTrueText};
ghost use Rattle.win_commands.specs.Text.{solution_of};
ghost use Rattle.win_commands.specs.Verdicts.{verdict as solution_verdict};
ghost use Rattle.win_commands.specs.declared.head.Head.{Head as SolutionHead};
ghost use Rattle.hive_library.specs.Runs.{InRange, OfAsked, OfInput, OfVerdict};

use crate::faults::Fault;
use crate::rooms::give;
use crate::runs::{give_run, is_too_long, new_sink};
use crate::sources::TextSource;
use certificate_commands::{certify, check};
use count_command::count;
use fast_game::FastGame;
use io_edge::MemSink;
use std::alloc::Global;
use win_commands::{solve, verify};

/// For each number of plies n from 1 to `plies`, at most 8: how many lists of n legal moves the one
/// game of the text can go on with, as `count` writes them.
#[unsafe(no_mangle)]
pub extern "C" fn hive_library_count(
    alloc: Global,
    text: &[u8],
    plies: u32,
    room: &mut [u8],
    needed: &mut usize,
) -> u32
    ensures answers { InRange 1 8 plies (OfInput text.now (OfAsked (counts_of plies)
        (asked (lines text.now)))) result room.old room.new needed.new }
    ensures untouched { result ≢ 0 → result ≢ 6 → room.new ≡ room.old }
{
    if plies < 1 || 8 < plies {
        return give(Err(Fault::OutOfRange), room, needed);
    }
    if is_too_long(text) {
        return give(Err(Fault::TooLong), room, needed);
    }
    let mut input = TextSource::new(text);
    let mut output = new_sink(alloc);
    let status = count::<TextSource, MemSink, FastGame>(alloc, plies, &mut input, &mut output);
    give_run(status, output.bytes(), room, needed)
}

/// The certificate of the best move of the one game of the text, from 1 to 64 plies deep, as
/// `certify` writes it.
#[unsafe(no_mangle)]
pub extern "C" fn hive_library_certify(
    alloc: Global,
    text: &[u8],
    depth: u32,
    room: &mut [u8],
    needed: &mut usize,
) -> u32
    ensures answers { InRange 1 64 depth (OfInput text.now (OfAsked (certificates_of depth)
        (asked (lines text.now)))) result room.old room.new needed.new }
    ensures untouched { result ≢ 0 → result ≢ 6 → room.new ≡ room.old }
{
    if depth < 1 || 64 < depth {
        return give(Err(Fault::OutOfRange), room, needed);
    }
    if is_too_long(text) {
        return give(Err(Fault::TooLong), room, needed);
    }
    let mut input = TextSource::new(text);
    let mut output = new_sink(alloc);
    let status = certify::<TextSource, MemSink, FastGame>(alloc, depth, &mut input, &mut output);
    give_run(status, output.bytes(), room, needed)
}

/// Whether the text is a certificate that holds, as `check` writes it. If the status says done, the
/// claim of the text is true.
#[unsafe(no_mangle)]
pub extern "C" fn hive_library_check(
    alloc: Global,
    text: &[u8],
    room: &mut [u8],
    needed: &mut usize,
) -> u32
    ensures answers { OfInput text.now (OfVerdict (verdict (lines text.now)))
        result room.old room.new needed.new }
    ensures claim { result ≡ 0
        → (head : Head) × (m : Move) × IsTrueClaim (lines text.now) head m }
    ensures held { result ≡ 0 → IsHeld (lines text.now) }
    ensures untouched { result ≢ 0 → result ≢ 1 → result ≢ 6 → room.new ≡ room.old }
{
    if is_too_long(text) {
        return give(Err(Fault::TooLong), room, needed);
    }
    let mut input = TextSource::new(text);
    let mut output = new_sink(alloc);
    let status = check::<TextSource, MemSink, FastGame>(alloc, &mut input, &mut output);
    give_run(status, output.bytes(), room, needed)
}

/// Whether the side to move in the one game of the text can force a win within `plies` plies, from
/// 1 to 16. The text has the indices that show it, as `solve` writes them.
#[unsafe(no_mangle)]
pub extern "C" fn hive_library_solve(
    alloc: Global,
    text: &[u8],
    plies: u32,
    room: &mut [u8],
    needed: &mut usize,
) -> u32
    ensures answers { InRange 1 16 plies (OfInput text.now (OfAsked (solution_of plies)
        (asked (lines text.now)))) result room.old room.new needed.new }
    ensures untouched { result ≢ 0 → result ≢ 6 → room.new ≡ room.old }
{
    if plies < 1 || 16 < plies {
        return give(Err(Fault::OutOfRange), room, needed);
    }
    if is_too_long(text) {
        return give(Err(Fault::TooLong), room, needed);
    }
    let mut input = TextSource::new(text);
    let mut output = new_sink(alloc);
    let status = solve::<TextSource, MemSink, FastGame>(alloc, plies, &mut input, &mut output);
    give_run(status, output.bytes(), room, needed)
}

/// Whether the text is a solution that holds, as `verify` writes it. If the status says done, the
/// answer of the text is true.
#[unsafe(no_mangle)]
pub extern "C" fn hive_library_verify(
    alloc: Global,
    text: &[u8],
    room: &mut [u8],
    needed: &mut usize,
) -> u32
    ensures answers { OfInput text.now (OfVerdict (solution_verdict (lines text.now)))
        result room.old room.new needed.new }
    ensures answer { result ≡ 0 → (head : SolutionHead) × IsTrueText (lines text.now) head }
    ensures held { result ≡ 0
        → (head : SolutionHead) × (indices : List ℕ) × HoldsSolution (lines text.now) head indices }
    ensures untouched { result ≢ 0 → result ≢ 1 → result ≢ 6 → room.new ≡ room.old }
{
    if is_too_long(text) {
        return give(Err(Fault::TooLong), room, needed);
    }
    let mut input = TextSource::new(text);
    let mut output = new_sink(alloc);
    let status = verify::<TextSource, MemSink, FastGame>(alloc, &mut input, &mut output);
    give_run(status, output.bytes(), room, needed)
}
