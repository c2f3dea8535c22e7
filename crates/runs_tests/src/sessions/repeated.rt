//! Games that a third repetition ends, if the option Repetition was 1 when they began.

use crate::sessions::expect_session;
use std::test::Fail;

/// Moves after which the queens stand beside their ants.
const HOME: &str = "wA1;bA1 wA1-;wQ -wA1;bQ bA1-";

/// Both queens go and come back.
const ROUND: &str = ";wQ \\wA1;bQ bA1/;wQ -wA1;bQ bA1-";

/// The same without the last move.
const ROUND_BUT_ONE: &str = ";wQ \\wA1;bQ bA1/;wQ -wA1";

/// Turns the rule on for the games that begin from now on.
const ON: &str = "options set Repetition 1\n";

/// The reply to it.
const IS_ON: &str = "Repetition;int;1;0;0;1\nok\n";

#[test]
fn the_third_time_is_a_draw(rt: HostRuntime) -> Result<(), Fail> {
    let round = "play wQ \\wA1\nplay bQ bA1/\nplay wQ -wA1\nplay bQ bA1-\n";
    let lines = [
        ON,
        "newgame\nplay wA1\nplay bA1 wA1-\nplay wQ -wA1\nplay bQ bA1-\n",
        round,
        round,
        "validmoves\nundo\n",
    ];
    let replies = [
        IS_ON,
        "Base;NotStarted;White[1]\nok\n",
        "Base;InProgress;Black[1];wA1\nok\n",
        "Base;InProgress;White[2];wA1;bA1 wA1-\nok\n",
        "Base;InProgress;Black[2];wA1;bA1 wA1-;wQ -wA1\nok\n",
        "Base;InProgress;White[3];",
        HOME,
        "\nok\nBase;InProgress;Black[3];",
        HOME,
        ";wQ \\wA1\nok\nBase;InProgress;White[4];",
        HOME,
        ";wQ \\wA1;bQ bA1/\nok\nBase;InProgress;Black[4];",
        HOME,
        ROUND_BUT_ONE,
        "\nok\nBase;InProgress;White[5];",
        HOME,
        ROUND,
        "\nok\nBase;InProgress;Black[5];",
        HOME,
        ROUND,
        ";wQ \\wA1\nok\nBase;InProgress;White[6];",
        HOME,
        ROUND,
        ";wQ \\wA1;bQ bA1/\nok\nBase;InProgress;Black[6];",
        HOME,
        ROUND,
        ROUND_BUT_ONE,
        "\nok\nBase;Draw;White[7];",
        HOME,
        ROUND,
        ROUND,
        "\nok\nerr 8 game over\nok\nBase;InProgress;Black[6];",
        HOME,
        ROUND,
        ROUND_BUT_ONE,
        "\nok\n",
    ];
    expect_session(&rt, rt.alloc(), &lines, &replies)?;
    Ok(())
}

#[test]
fn a_text_is_read_by_the_rule_of_its_game(rt: HostRuntime) -> Result<(), Fail> {
    let drawn = ["newgame Base;Draw;White[7];", HOME, ROUND, ROUND, "\n"];
    let longer = [
        "newgame Base;InProgress;Black[7];",
        HOME,
        ROUND,
        ROUND,
        ";wQ \\wA1\n",
    ];
    for (switch, game, reply) in [
        ("", drawn, ["", "err 5 other state", "", "", "\nok\n"]),
        (
            ON,
            drawn,
            ["Base;Draw;White[7];", HOME, ROUND, ROUND, "\nok\n"],
        ),
        (ON, longer, ["", "err 6 illegal move 13", "", "", "\nok\n"]),
        (
            "",
            longer,
            [
                "Base;InProgress;Black[7];",
                HOME,
                ROUND,
                ROUND,
                ";wQ \\wA1\nok\n",
            ],
        ),
    ] {
        let lines = [switch, game[0], game[1], game[2], game[3], game[4]];
        let first = if switch.is_empty() { "" } else { IS_ON };
        let replies = [first, reply[0], reply[1], reply[2], reply[3], reply[4]];
        expect_session(&rt, rt.alloc(), &lines, &replies)?;
    }
    Ok(())
}

#[test]
fn a_drawn_game_goes_on_where_its_last_move_is_taken_back(rt: HostRuntime) -> Result<(), Fail> {
    let lines = [
        ON,
        "newgame Base;Draw;White[7];",
        HOME,
        ROUND,
        ROUND,
        "\nplay wQ \\wA1\nbestmove depth 1\nundo\nplay bQ bA1-\nundo 2\nplay wS1 -wQ\n",
    ];
    let replies = [
        IS_ON,
        "Base;Draw;White[7];",
        HOME,
        ROUND,
        ROUND,
        "\nok\ninvalidmove 4 game over\nok\nerr 8 game over\nok\nBase;InProgress;Black[6];",
        HOME,
        ROUND,
        ROUND_BUT_ONE,
        "\nok\nBase;Draw;White[7];",
        HOME,
        ROUND,
        ROUND,
        "\nok\nBase;InProgress;White[6];",
        HOME,
        ROUND,
        ";wQ \\wA1;bQ bA1/\nok\nBase;InProgress;Black[6];",
        HOME,
        ROUND,
        ";wQ \\wA1;bQ bA1/;wS1 -wQ\nok\n",
    ];
    expect_session(&rt, rt.alloc(), &lines, &replies)?;
    Ok(())
}

#[test]
fn passes_are_positions_too(rt: HostRuntime) -> Result<(), Fail> {
    let front = concat!(
        "wB1;bS1 wB1-;wQ \\wB1;bQ bS1-;wQ wB1/;bQ bS1\\;wB1 bS1;bQ wB1-;wB2 /wB1;bQ wB2-;",
        "wB2 bQ;pass",
    );
    let round = ";wQ wB1/;pass;wQ \\wB1;pass";
    let lines = [
        ON,
        "newgame Base;InProgress;Black[10];",
        front,
        round,
        ";wQ wB1/;pass;wQ \\wB1\npass\nvalidmoves\n",
    ];
    let replies = [
        IS_ON,
        "Base;InProgress;Black[10];",
        front,
        round,
        ";wQ wB1/;pass;wQ \\wB1\nok\nBase;Draw;White[11];",
        front,
        round,
        round,
        "\nok\nerr 8 game over\nok\n",
    ];
    expect_session(&rt, rt.alloc(), &lines, &replies)?;
    Ok(())
}

#[test]
fn other_resting_pieces_or_movers_are_no_repetition(rt: HostRuntime) -> Result<(), Fail> {
    let front = "wA1;bA1 wA1-;wQ -wA1;bQ bA1-;wA2 /wA1;bA2 /bQ";
    for (turn, moves, last, next_turn) in [
        // the pieces are in these places three times, with bA2, bQ and bA2 at rest
        (
            "Black[7];",
            ";wQ \\wA1;bQ bA1/;wQ -wA1;bQ bA1-;wQ \\wA1;bA2 bQ-;wQ -wA1",
            "bA2 /bQ",
            "White[8];",
        ),
        // and here with white, black and white to move
        (
            "Black[8];",
            ";wA2 -wQ;bQ bA1/;wA2 \\wQ;bQ bA1-;wA2 /wA1;bA2 bQ-;wQ \\wA1;bA2 bQ/;wQ -wA1",
            "bA2 /bQ",
            "White[9];",
        ),
    ] {
        let game = ["Base;InProgress;", turn, front, moves];
        let lines = [
            ON, "newgame ", game[0], game[1], game[2], game[3], "\nplay ", last, "\n",
        ];
        let replies = [
            IS_ON,
            game[0],
            game[1],
            game[2],
            game[3],
            "\nok\nBase;InProgress;",
            next_turn,
            front,
            moves,
            ";",
            last,
            "\nok\n",
        ];
        expect_session(&rt, rt.alloc(), &lines, &replies)?;
    }
    Ok(())
}

#[test]
fn the_rule_is_that_of_the_beginning(rt: HostRuntime) -> Result<(), Fail> {
    let lines = [
        "newgame Base;InProgress;Black[6];",
        HOME,
        ROUND,
        ROUND_BUT_ONE,
        "\noptions set Repetition 1\nplay bQ bA1-\nundo\nnewgame Base;InProgress;Black[6];",
        HOME,
        ROUND,
        ROUND_BUT_ONE,
        "\noptions set Repetition 0\nplay bQ bA1-\n",
        "options set Repetition 2\noptions get Repetition\n",
    ];
    let replies = [
        "Base;InProgress;Black[6];",
        HOME,
        ROUND,
        ROUND_BUT_ONE,
        "\nok\nRepetition;int;1;0;0;1\nok\nBase;InProgress;White[7];",
        HOME,
        ROUND,
        ROUND,
        "\nok\nBase;InProgress;Black[6];",
        HOME,
        ROUND,
        ROUND_BUT_ONE,
        "\nok\nBase;InProgress;Black[6];",
        HOME,
        ROUND,
        ROUND_BUT_ONE,
        "\nok\nRepetition;int;0;0;0;1\nok\nBase;Draw;White[7];",
        HOME,
        ROUND,
        ROUND,
        "\nok\nerr 9 value out of range\nok\nRepetition;int;0;0;0;1\nok\n",
    ];
    expect_session(&rt, rt.alloc(), &lines, &replies)?;
    Ok(())
}
