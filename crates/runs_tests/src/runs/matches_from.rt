//! Matches that begin with the game of the input, over programs in memory.

use crate::runs::programs::run_over;
use hive_cli::Status;
use io_edge::StepClock;
use std::test::Fail;

/// The words of a match from the game of the input, to depth 1 and of at most six plies.
const WORDS: [&str; 11] = [
    "match", "--white", "w", "--black", "b", "--from", "1", "--depth", "1", "--plies", "6",
];

/// A game of four plies.
const GIVEN: &str = "Base+MLP;InProgress;White[3];wS1;bS1 wS1-;wQ /wS1;bQ bS1-\n";

/// What white says: it greets, begins, plays beside its queen, and is told of both moves.
const WHITE: &[u8] = b"id A\nok\nx\nok\nwA1 /wQ\nok\nx\nok\nx\nok\n";

/// What black says: it greets, begins, is told of white's move, plays beside its queen, and is told
/// of its own move.
const BLACK: &[u8] = b"id B\nok\nx\nok\nx\nok\nbA1 bQ-\nok\nx\nok\n";

const TOLD: &[u8] = b"Base+MLP;InProgress;White[4];wS1;bS1 wS1-;wQ /wS1;bQ bS1-;wA1 /wQ;bA1 bQ-\n\
    limit 6\n";

const TO_WHITE: &[u8] = b"newgame Base+MLP;InProgress;White[3];wS1;bS1 wS1-;wQ /wS1;bQ bS1-\n\
    bestmove depth 1\nplay wA1 /wQ\nplay bA1 bQ-\n";

const TO_BLACK: &[u8] = b"newgame Base+MLP;InProgress;White[3];wS1;bS1 wS1-;wQ /wS1;bQ bS1-\n\
    play wA1 /wQ\nbestmove depth 1\nplay bA1 bQ-\n";

#[test]
fn a_match_begins_with_the_game_of_the_input(rt: HostRuntime) -> Result<(), Fail> {
    let said = [WHITE, BLACK];
    let mut clock = StepClock::new(0, 1);
    let played = run_over(&rt, rt.alloc(), &WORDS, GIVEN, &said, 0, &mut clock)?;
    assert_eq!(rt; played.status, Status::Done);
    assert_eq!(rt; played.output.bytes(), TOLD);
    assert_eq!(rt; played.sent(0), TO_WHITE);
    assert_eq!(rt; played.sent(1), TO_BLACK);
    Ok(())
}

/// White has surrounded the black queen.
const WON: &str = "Base;WhiteWins;Black[7];wS1;bS1 wS1-;wQ /wS1;bQ bS1-;wQ /bS1;bQ wQ-;wG1 -wS1;\
                   bG1 bS1-;wB1 /wQ;bB1 bQ-;wA1 -wB1;bA1 /bB1;wA1 wB1-\n";

/// Inputs from which no match begins, and the line that says so.
const REFUSED: [(&str, &str); 5] = [
    (WON, "bad game over\n"),
    ("", "bad no line\n"),
    ("Base;InProgress\n", "bad malformed part 3\n"),
    ("Base;InProgress;Black[1];wQ\n", "bad illegal move 1\n"),
    ("Base\n\n", "bad more lines\n"),
];

#[test]
fn no_match_begins_without_a_game_that_goes_on(rt: HostRuntime) -> Result<(), Fail> {
    for (input, written) in REFUSED {
        let said = [WHITE, BLACK];
        let mut clock = StepClock::new(0, 1);
        let played = run_over(&rt, rt.alloc(), &WORDS, input, &said, 0, &mut clock)?;
        assert_eq!(rt; played.status, Status::BadInput);
        assert_eq!(rt; played.output.bytes(), written.as_bytes());
        assert_eq!(rt; played.sent(0), b"none was closed".as_slice());
    }
    Ok(())
}
