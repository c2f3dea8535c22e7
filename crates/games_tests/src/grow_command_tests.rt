//! Games of known seeds, as they are written.

ghost use Rattle.std.specs.Prelude.{◌≤◌};

use command_runs::Status;
use fast_game::FastGame;
use game_text::read_game;
use grow_command::grow;
use io_edge::MemSink;
use memory_sides::{CUTS, MemSetting};
use move_text::read_number;
use std::alloc::{AllocError, Global};
use std::test::Fail;

/// What is written about one ply of seed 0.
const ONE_PLY: &str = "seed 0\ntype Base+MLP\nplies 1\nstate InProgress\nmoves 7\nundone 1\n\
    best bS1 -wG1\ngame Base+MLP;InProgress;Black[1];wG1\n";

/// How a run ended, and what it wrote.
#[derive(Drop)]
struct Seen {
    status: Status,
    written: Vec<u8>,
}

/// Makes a game over a sink in memory.
fn told(alloc: Global, seed: u64, plies: u32, setting: MemSetting<'_>) -> Result<Seen, AllocError>
    requires some { 1 ≤ plies }
    requires few { plies ≤ 1000 }
{
    let mut sink = setting.sink(alloc)?;
    let status = grow::<MemSink, FastGame>(alloc, seed, plies, &mut sink);
    let written = Vec::from_slice(alloc, sink.bytes())?;
    Ok(Seen { status, written })
}

/// The rest of the first line that begins with the word.
fn field<'a>(text: &'a [u8], word: &[u8]) -> Option<&'a [u8]> {
    for line in text.split(|byte| *byte == b'\n') {
        if let Some(field) = line.strip_prefix(word) {
            return Some(field);
        }
    }
    None
}

/// The state that a game string says.
fn state_in(game: &[u8]) -> Option<&[u8]> {
    let mut parts = game.split(|byte| *byte == b';');
    parts.next()?;
    parts.next()
}

/// How many moves a game string has, if it is one.
fn moves_in(alloc: Global, game: &[u8]) -> Option<u64> {
    if game.len() > 65_536 {
        return None;
    }
    match read_game::<FastGame>(alloc, game) {
        Ok(read) => Some(read.moves.items().len() as u64),
        Err(_) => None,
    }
}

#[test]
fn one_ply_of_seed_zero(rt: HostRuntime) -> Result<(), Fail> {
    for pieces in CUTS {
        let seen = told(rt.alloc(), 0, 1, MemSetting::of(b"").cut(pieces))?;
        assert_eq!(rt; seen.status, Status::Done);
        assert_eq!(rt; seen.written.as_slice(), ONE_PLY.as_bytes());
    }
    Ok(())
}

#[test]
fn a_seed_is_told_the_same_twice(rt: HostRuntime) -> Result<(), Fail> {
    let one = told(rt.alloc(), 7, 200, MemSetting::of(b""))?;
    let two = told(rt.alloc(), 7, 200, MemSetting::of(b""))?;
    assert_eq!(rt; one.status, Status::Done);
    assert_eq!(rt; two.status, Status::Done);
    assert_eq!(rt; one.written.as_slice(), two.written.as_slice());
    let plies = field(one.written.as_slice(), b"plies ").ok_or("no line of the plies")?;
    let undone = field(one.written.as_slice(), b"undone ").ok_or("no line of the undone")?;
    assert_eq!(rt; plies, undone);
    Ok(())
}

/// The game string is a game, with the number of plies and the state that the lines say. The line
/// of the best move says none if and only if the game is over.
#[test]
fn what_is_told_is_of_the_game(rt: HostRuntime) -> Result<(), Fail> {
    for seed in 0..10 {
        let seen = told(rt.alloc(), seed, 60, MemSetting::of(b"").cut(&[7]))?;
        let text = seen.written.as_slice();
        let plies = field(text, b"plies ").ok_or("no line of the plies")?;
        let state = field(text, b"state ").ok_or("no line of the state")?;
        let best = field(text, b"best ").ok_or("no line of the best move")?;
        let game = field(text, b"game ").ok_or("no line of the game")?;
        let count = read_number(plies, 1, 60).ok_or("no number of plies")?;
        assert_eq!(rt; moves_in(rt.alloc(), game), Some(count), "seed {seed}");
        assert_eq!(rt; state_in(game), Some(state), "seed {seed}");
        let goes_on = state == b"InProgress".as_slice();
        assert_eq!(rt; best != b"none".as_slice(), goes_on, "seed {seed}");
    }
    Ok(())
}

#[test]
fn a_write_that_fails_ends_the_telling(rt: HostRuntime) -> Result<(), Fail> {
    for (failing_write, front) in [(1, ""), (3, "seed 0\ntype Ba")] {
        let setting = MemSetting::of(b"").cut(&[7]).failing(0, failing_write);
        let seen = told(rt.alloc(), 0, 1, setting)?;
        assert_eq!(rt; seen.status, Status::WriteFault);
        assert_eq!(rt; seen.written.as_slice(), front.as_bytes());
    }
    Ok(())
}
