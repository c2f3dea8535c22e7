//! Positions whose forced wins are known, and sinks that take few bytes or fail.

use command_runs::read_one_game;
use hive_model::Game;
use io_edge::{MemSink, MemSource};
use memory_sides::MemSetting;
use plain_game::PlainGame;
use std::alloc::{AllocError, Global};
use std::test::Fail;
use win_solver::Solver;

/// A game whose side to move wins with its next move.
const WON: &str = concat!(
    "Base;InProgress;White[7];wS1;bS1 wS1-;wQ /wS1;bQ bS1-;wQ /bS1;bQ wQ-;wG1 -wS1;",
    "bG1 bS1-;wB1 /wQ;bB1 bQ-;wA1 -wB1;bA1 /bB1",
);

/// Whether a win can be forced within 1, 2 and 3 plies in the game of a text, or `None` if it is no
/// game.
fn answers(alloc: Global, text: &str) -> Result<Option<[bool; 3]>, AllocError> {
    let mut source = MemSetting::of(text.as_bytes()).source(alloc)?;
    let Ok(mut game) = read_one_game::<MemSource, PlainGame>(alloc, &mut source, 3) else {
        return Ok(None);
    };
    let mut solver = Solver::prepare(alloc, 1_000, 3)?;
    let one = solver.solve(&mut game, 1);
    let two = solver.solve(&mut game, 2);
    let three = solver.solve(&mut game, 3);
    Ok(Some([one, two, three]))
}

/// How many moves a solver plays when it decides twice, for the game of a text, whether a win can
/// be forced within two plies: the first time and the second. `None` if the text is no game.
fn plays_of_two_tells(alloc: Global, text: &str) -> Result<Option<(u64, u64)>, AllocError> {
    let mut source = MemSetting::of(text.as_bytes()).source(alloc)?;
    let Ok(mut game) = read_one_game::<MemSource, PlainGame>(alloc, &mut source, 2) else {
        return Ok(None);
    };
    let mut solver = Solver::prepare(alloc, 1_000, 2)?;
    let begun = game.played();
    let _ = solver.solve(&mut game, 2);
    let told = game.played();
    let _ = solver.solve(&mut game, 2);
    let again = game.played();
    Ok(Some((told.saturating_sub(begun), again.saturating_sub(told))))
}

/// What is written for the opening within two plies, and whether everything was. The pieces have
/// `piece` bytes, and the write of the number `fails` fails.
fn written(alloc: Global, piece: usize, fails: u64) -> Result<(bool, MemSink), AllocError> {
    let setting = MemSetting::of(b"Base".as_slice()).failing(0, fails);
    let mut source = setting.source(alloc)?;
    let sizes = [piece];
    let mut sink = setting.cut(&sizes).sink(alloc)?;
    let Ok(mut game) = read_one_game::<MemSource, PlainGame>(alloc, &mut source, 2) else {
        return Ok((false, sink));
    };
    let mut solver = Solver::prepare(alloc, 1_000, 2)?;
    let whole = solver.write_indices(&mut game, 2, &mut sink);
    Ok((whole, sink))
}

#[test]
fn wins_are_told_within_more_plies_too(rt: HostRuntime) -> Result<(), Fail> {
    let opening = answers(rt.alloc(), "Base")?;
    assert_eq!(rt; opening, Some([false, false, false]));
    let won = answers(rt.alloc(), WON)?;
    assert_eq!(rt; won, Some([true, true, true]));
    Ok(())
}

#[test]
fn indices_are_written_whole_or_cut_short(rt: HostRuntime) -> Result<(), Fail> {
    for (piece, fails, whole, lines) in [
        (1, 0, true, "0\n0\n0\n0\n"),
        (7, 0, true, "0\n0\n0\n0\n"),
        (100, 0, true, "0\n0\n0\n0\n"),
        (100, 3, false, "0\n0\n"),
    ] {
        let (done, sink) = written(rt.alloc(), piece, fails)?;
        assert_eq!(rt; done, whole, "pieces of {piece}");
        assert_eq!(rt; sink.bytes(), lines.as_bytes(), "pieces of {piece}");
    }
    Ok(())
}

#[test]
fn what_was_told_before_serves(rt: HostRuntime) -> Result<(), Fail> {
    for text in ["Base", WON] {
        let (first, second) = plays_of_two_tells(rt.alloc(), text)?.ok_or("a game")?;
        assert!(rt; first > 0);
        assert!(rt; second < first, "{second} plays and {first} of {text}");
    }
    Ok(())
}
