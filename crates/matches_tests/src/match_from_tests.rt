//! Matches of two programs in memory, from a given game.

use crate::match_command_tests::in_sevens;
use crate::seen::{expect_seen, expect_sent};
use command_runs::Status;
use fast_game::FastGame;
use game_text::{played, read_game_under};
use hive_model::Game;
use io_edge::{MemSink, MemSpawner, StepClock};
use match_command::play_match_from;
use match_core::{Level, Setup};
use memory_sides::{MemSetting, Played, links_of, owned_words, spawner_of};
use std::alloc::{AllocError, Global};
use std::test::Fail;

/// What a match begins with: the line of a game, the rule, and the limit of plies.
#[derive(Clone, Copy)]
struct Given<'a> {
    line: &'a str,
    repetition: bool,
    limit: u32,
}

/// The match to depth 1 of two programs that say these texts, from a given game, if it is one.
fn play_from(
    alloc: Global,
    given: Given<'_>,
    white: &[u8],
    black: &[u8],
) -> Result<Option<Played<Status>>, AllocError> {
    if given.line.len() > 1000 || given.limit < 1 || given.limit > 1000 {
        return Ok(None);
    }
    let line = given.line.as_bytes();
    let Ok(parsed) = read_game_under::<FastGame>(alloc, line, given.repetition) else {
        return Ok(None);
    };
    let game: FastGame = played(alloc, parsed.game_type, parsed.moves.items(), 0)?;
    let setup = Setup {
        game_type: parsed.game_type,
        level: Level::Depth { depth: 1 },
        limit: given.limit,
        repetition: given.repetition,
    };
    let words = owned_words(alloc, &["engine"])?;
    let mut output = MemSetting::of(b"").cut(&[7]).sink(alloc)?;
    let links = links_of(alloc, &[in_sevens(white), in_sevens(black)])?;
    let mut spawner = spawner_of(alloc, links, 0)?;
    let mut clock = StepClock::new(0, 1);
    let status = play_match_from::<MemSpawner, MemSink, StepClock, FastGame>(
        alloc,
        words.as_slice(),
        words.as_slice(),
        setup,
        game,
        &mut output,
        &mut clock,
        &mut spawner,
    );
    Ok(Some(Played {
        status,
        output,
        spawner,
    }))
}

/// White greets, begins, plays beside its spider and is told of it.
const WHITE: &[u8] = b"id A\nok\nx\nok\nwQ /wS1\nok\nx\nok\n";

/// Black greets, begins, is told of white's move and answers with a move that is not legal.
const BLACK: &[u8] = b"id B\nok\nx\nok\nx\nok\nbQ -wS1\nok\n";

const TO_WHITE: &[u8] = b"newgame Base;InProgress;White[2];wS1;bS1 wS1-\n\
                          bestmove depth 1\n\
                          play wQ /wS1\n";

const TO_BLACK: &[u8] = b"newgame Base;InProgress;White[2];wS1;bS1 wS1-\n\
                          play wQ /wS1\n\
                          bestmove depth 1\n";

const TOLD: &[u8] = b"Base;InProgress;Black[2];wS1;bS1 wS1-;wQ /wS1\n\
                      forfeit black illegal bQ -wS1\n";

#[test]
fn a_match_goes_on_from_a_given_game(rt: HostRuntime) -> Result<(), Fail> {
    let given = Given {
        line: "Base;InProgress;White[2];wS1;bS1 wS1-",
        repetition: false,
        limit: 400,
    };
    let played = play_from(rt.alloc(), given, WHITE, BLACK)?;
    assert!(rt; played.is_some());
    if let Some(seen) = &played {
        expect_seen(&rt, seen, Status::Done, TOLD, 2);
        expect_sent(&rt, seen, &[TO_WHITE, TO_BLACK]);
    }
    Ok(())
}

/// White has surrounded the black queen.
const WON: &str = "Base;WhiteWins;Black[7];wS1;bS1 wS1-;wQ /wS1;bQ bS1-;wQ /bS1;bQ wQ-;wG1 -wS1;\
                   bG1 bS1-;wB1 /wQ;bB1 bQ-;wA1 -wB1;bA1 /bB1;wA1 wB1-";

/// Both queens left their places and came back, twice.
const DRAWN: &str = "Base;Draw;White[7];wA1;bA1 wA1-;wQ -wA1;bQ bA1-;wQ \\wA1;bQ bA1/;wQ -wA1;\
                     bQ bA1-;wQ \\wA1;bQ bA1/;wQ -wA1;bQ bA1-";

/// The same game as the engines are told it. They are not told of the rule of third repetition.
const GOING: &str = "Base;InProgress;White[7];wA1;bA1 wA1-;wQ -wA1;bQ bA1-;wQ \\wA1;bQ bA1/;\
                     wQ -wA1;bQ bA1-;wQ \\wA1;bQ bA1/;wQ -wA1;bQ bA1-";

/// A game with as many plies as it may have.
const TWO: &str = "Base;InProgress;White[2];wS1;bS1 wS1-";

/// A game that does not go on: its line as the engines are told it, its line as written at the end,
/// and how a match from it ends.
struct Row {
    told: &'static str,
    line: &'static str,
    repetition: bool,
    limit: u32,
    ending: &'static str,
}

const ROWS: [Row; 3] = [
    Row {
        told: WON,
        line: WON,
        repetition: false,
        limit: 400,
        ending: "result WhiteWins",
    },
    Row {
        told: GOING,
        line: DRAWN,
        repetition: true,
        limit: 400,
        ending: "result Draw",
    },
    Row {
        told: TWO,
        line: TWO,
        repetition: false,
        limit: 1,
        ending: "limit 1",
    },
];

#[test]
fn a_given_game_that_is_over_has_its_verdict_at_once(rt: HostRuntime) -> Result<(), Fail> {
    for row in &ROWS {
        let given = Given {
            line: row.line,
            repetition: row.repetition,
            limit: row.limit,
        };
        let played = play_from(rt.alloc(), given, b"ok\nok\n", b"ok\nok\n")?;
        assert!(rt; played.is_some());
        if let Some(seen) = &played {
            let told = ["newgame ", row.told, "\n"].concat(rt.alloc())?;
            let text = [row.line, "\n", row.ending, "\n"].concat(rt.alloc())?;
            expect_seen(&rt, seen, Status::Done, text.as_bytes(), 2);
            expect_sent(&rt, seen, &[told.as_bytes(), told.as_bytes()]);
        }
    }
    Ok(())
}
