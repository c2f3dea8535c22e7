//! Worked games, each with all that is written for it.

use crate::sessions::{expect_session, run_in_memory};
use hive_cli::Status;
use memory_sides::MemSetting;
use std::test::Fail;

const EMPTY: &str = "Base;NotStarted;White[1]\nok\n";

/// The first moves of black after `wS1`.
const SECONDS: &str = "bS1 -wS1;bS1 /wS1;bS1 \\wS1;bS1 wS1\\;bS1 wS1/;bS1 wS1-;\
                       bB1 -wS1;bB1 /wS1;bB1 \\wS1;bB1 wS1\\;bB1 wS1/;bB1 wS1-;\
                       bG1 -wS1;bG1 /wS1;bG1 \\wS1;bG1 wS1\\;bG1 wS1/;bG1 wS1-;\
                       bA1 -wS1;bA1 /wS1;bA1 \\wS1;bA1 wS1\\;bA1 wS1/;bA1 wS1-";

/// A game in which there are four places to which the ant `wA1` can walk and to which the pillbug
/// can also throw it.
const WALKED_OR_THROWN: &str =
    "Base+P;InProgress;White[5];wS1;bS1 wS1-;wQ -wS1;bQ bS1-;wP -wQ;bG1 bQ-;wA1 -wP;bA1 bG1-";

/// The moves of `wA1` there, each once.
const MOVES_OF_THE_ANT: &str =
    "wA1 /wP;wA1 \\wP;wA1 /wQ;wA1 wP/;wA1 /wS1;wA1 wQ/;wA1 /bS1;wA1 wS1/;wA1 /bQ;\
                   wA1 bS1/;wA1 /bG1;wA1 bQ/;wA1 /bA1;wA1 bG1/;wA1 bA1\\;wA1 bA1/;wA1 bA1-";

#[test]
fn a_game_begins(rt: HostRuntime) -> Result<(), Fail> {
    for (lines, replies) in [
        ("", ""),
        ("newgame\nvalidmoves\n", "wS1;wB1;wG1;wA1\nok\n"),
        ("newgame\r\nvalidmoves", "wS1;wB1;wG1;wA1\nok\n"),
    ] {
        let first = if lines.is_empty() { "" } else { EMPTY };
        expect_session(&rt, rt.alloc(), &[lines], &[first, replies])?;
    }
    Ok(())
}

#[test]
fn expansions_have_their_pieces(rt: HostRuntime) -> Result<(), Fail> {
    for (game_type, moves) in [
        ("Base+MLP", "wS1;wB1;wG1;wA1;wM;wL;wP"),
        ("Base+ML", "wS1;wB1;wG1;wA1;wM;wL"),
    ] {
        let lines = ["newgame ", game_type, "\nvalidmoves\n"];
        let replies = [game_type, ";NotStarted;White[1]\nok\n", moves, "\nok\n"];
        expect_session(&rt, rt.alloc(), &lines, &replies)?;
    }
    Ok(())
}

#[test]
fn black_goes_beside_the_first_piece(rt: HostRuntime) -> Result<(), Fail> {
    let lines = ["newgame\nplay wS1\nvalidmoves\n"];
    let replies = [
        EMPTY,
        "Base;InProgress;Black[1];wS1\nok\n",
        SECONDS,
        "\nok\n",
    ];
    expect_session(&rt, rt.alloc(), &lines, &replies)?;
    Ok(())
}

#[test]
fn the_queen_is_placed_by_the_fourth_turn(rt: HostRuntime) -> Result<(), Fail> {
    let lines = [
        "newgame\nplay wS1\nplay bS1 wS1-\nplay wG1 -wS1\n",
        "play bG1 bS1-\nplay wA1 -wG1\nplay bA1 bG1-\nvalidmoves\n",
    ];
    let replies = [
        EMPTY,
        "Base;InProgress;Black[1];wS1\nok\n",
        "Base;InProgress;White[2];wS1;bS1 wS1-\nok\n",
        "Base;InProgress;Black[2];wS1;bS1 wS1-;wG1 -wS1\nok\n",
        "Base;InProgress;White[3];wS1;bS1 wS1-;wG1 -wS1;bG1 bS1-\nok\n",
        "Base;InProgress;Black[3];wS1;bS1 wS1-;wG1 -wS1;bG1 bS1-;wA1 -wG1\nok\n",
        "Base;InProgress;White[4];wS1;bS1 wS1-;wG1 -wS1;bG1 bS1-;wA1 -wG1;bA1 bG1-\nok\n",
        "wQ -wA1;wQ /wA1;wQ \\wA1;wQ /wG1;wQ wA1/;wQ /wS1;wQ wG1/\nok\n",
    ];
    expect_session(&rt, rt.alloc(), &lines, &replies)?;
    Ok(())
}

#[test]
fn a_queen_steps(rt: HostRuntime) -> Result<(), Fail> {
    let lines = [
        "newgame\nplay wA1\nplay bA1 wA1-\n",
        "play wQ -wA1\nplay bQ bA1-\nplay wQ \\wA1\n",
    ];
    let replies = [
        EMPTY,
        "Base;InProgress;Black[1];wA1\nok\n",
        "Base;InProgress;White[2];wA1;bA1 wA1-\nok\n",
        "Base;InProgress;Black[2];wA1;bA1 wA1-;wQ -wA1\nok\n",
        "Base;InProgress;White[3];wA1;bA1 wA1-;wQ -wA1;bQ bA1-\nok\n",
        "Base;InProgress;Black[3];wA1;bA1 wA1-;wQ -wA1;bQ bA1-;wQ \\wA1\nok\n",
    ];
    expect_session(&rt, rt.alloc(), &lines, &replies)?;
    Ok(())
}

#[test]
fn a_thrown_piece_rests(rt: HostRuntime) -> Result<(), Fail> {
    let game = "Base+P;InProgress;Black[4];wP;bA1 wP-;wQ -wP;bQ bA1/;wS1 -wQ;bQ wP/;bA1 wP\\";
    let lines = ["newgame ", game, "\nvalidmoves\nplay bA1 wP-\n"];
    let replies = [
        game,
        "\nok\nbQ wQ/;bQ wP-;",
        "bS1 /bA1;bS1 bA1\\;bS1 \\bQ;bS1 bA1-;bS1 bQ/;bS1 bQ-;",
        "bB1 /bA1;bB1 bA1\\;bB1 \\bQ;bB1 bA1-;bB1 bQ/;bB1 bQ-;",
        "bG1 /bA1;bG1 bA1\\;bG1 \\bQ;bG1 bA1-;bG1 bQ/;bG1 bQ-;",
        "bA2 /bA1;bA2 bA1\\;bA2 \\bQ;bA2 bA1-;bA2 bQ/;bA2 bQ-;",
        "bP /bA1;bP bA1\\;bP \\bQ;bP bA1-;bP bQ/;bP bQ-",
        "\nok\ninvalidmove 3 not legal\nok\n",
    ];
    expect_session(&rt, rt.alloc(), &lines, &replies)?;
    Ok(())
}

#[test]
fn a_side_without_a_move_passes(rt: HostRuntime) -> Result<(), Fail> {
    let front = "wB1;bS1 wB1-;wQ \\wB1;bQ bS1-;wQ wB1/;bQ bS1\\;";
    let back = ";bQ wB1-;wB2 /wB1;bQ wB2-;wB2 bQ";
    let lines = [
        "newgame Base;InProgress;Black[6];",
        front,
        "wB1 wQ\\",
        back,
        "\nvalidmoves\nplay pass\n",
    ];
    let replies = [
        "Base;InProgress;Black[6];",
        front,
        "wB1 bS1",
        back,
        "\nok\npass\nok\nBase;InProgress;White[7];",
        front,
        "wB1 bS1",
        back,
        ";pass\nok\n",
    ];
    expect_session(&rt, rt.alloc(), &lines, &replies)?;
    Ok(())
}

#[test]
fn a_draw_is_written_in_one_way(rt: HostRuntime) -> Result<(), Fail> {
    let moves = concat!(
        "wS1;bS1 wS1-;wQ /wS1;bQ bS1-;wQ /bS1;bQ wQ-;wG1 -wQ;bG1 bS1-;wB1 /wQ;bB1 bQ-;",
        "wA1 -wB1;bA1 /bB1",
    );
    let lines = [
        "newgame Base;Draw;Black[7];wS1;bS1 wS1-;wQ /wS1;bQ bS1-;wQ wS1\\;bQ bS1\\;",
        "wG1 -wQ;bG1 bS1-;wB1 wG1\\;bB1 bQ-;wA1 -wB1;bA1 bQ\\;wA1 wQ\\\n",
        "validmoves\nplay pass\nundo\n",
    ];
    let replies = [
        "Base;Draw;Black[7];",
        moves,
        ";wA1 wB1-\nok\nerr 8 game over\nok\ninvalidmove 4 game over\nok\n",
        "Base;InProgress;White[7];",
        moves,
        "\nok\n",
    ];
    expect_session(&rt, rt.alloc(), &lines, &replies)?;
    Ok(())
}

/// How often the text occurs in the bytes.
fn occurrences(bytes: &[u8], text: &[u8]) -> usize {
    let mut count: usize = 0;
    for start in 0..bytes.len() {
        if bytes[start..].starts_with(text) {
            count = count.saturating_add(1);
        }
    }
    count
}

#[test]
fn each_move_is_listed_once(rt: HostRuntime) -> Result<(), Fail> {
    let input = ["newgame ", WALKED_OR_THROWN, "\nvalidmoves\n"].concat(rt.alloc())?;
    let setting = MemSetting::of(input.as_bytes());
    let (status, sink) = run_in_memory(&rt, rt.alloc(), &["uhp"], setting)?;
    assert_eq!(rt; status, Status::Done);
    let written = sink.bytes();
    // the game's own text has one move of the piece
    assert_eq!(rt; occurrences(written, b"wA1 "), 18);
    assert_eq!(rt; occurrences(written, MOVES_OF_THE_ANT.as_bytes()), 1);
    Ok(())
}
