//! The turn of a line, the string of kept moves, and the words of each fault.

ghost use Rattle.std.specs.Prelude.{◌≡◌, pos};

use game_text::{
    GameFault, MoveTexts, lines_are_one_game, lines_are_one_game_under, lines_are_read,
    lines_are_read_under, read_game, strings_are_games, strings_are_games_under,
};
use hive_model::{Board, Colour, GameType, Key, Move, Piece, Place, Repeats, ReplyText, State};
use move_text::MoveFault;
use plain_game::PlainGame;
use stack_board::PlainBoard;
use std::alloc::Global;
use std::test::Fail;

const WITH_MOSQUITO: GameType = GameType {
    mosquito: true,
    ladybug: false,
    pillbug: false,
};

/// Why the line is not read as a game, if it is not.
fn fault_of(alloc: Global, line: &str) -> Option<GameFault> {
    if line.len() > 65_536 {
        return Some(GameFault::TooLong);
    }
    match read_game::<PlainGame>(alloc, line.as_bytes()) {
        Ok(_game) => None,
        Err(fault) => Some(fault),
    }
}

/// Why the line of an opening that declares this turn is not read as a game, if it is not.
fn fault_at(alloc: Global, turn: &str) -> Option<GameFault> {
    let Ok(line) = format!(in alloc; "Base;NotStarted;{turn}") else {
        return Some(GameFault::Memory);
    };
    fault_of(alloc, line.as_str())
}

fn spider_to_origin() -> Move
    ensures { result ≡ Move.To 1 record { q = pos 0; r = pos 0 } }
{
    Move::To {
        piece: Piece::at(1),
        place: Place { q: 0, r: 0 },
    }
}

#[test]
fn reads_turns(rt: HostRuntime) {
    for line in ["Base;NotStarted;White[1]", "Base;InProgress;Black[1];wS1"] {
        assert_eq!(rt; fault_of(rt.alloc(), line), None, "at {line}");
    }
    for turn in ["Black[1]", "Black[12]", "White[999999999]"] {
        let fault = fault_at(rt.alloc(), turn);
        assert_eq!(rt; fault, Some(GameFault::OtherTurn), "at {turn}");
    }
    for turn in [
        "White[1000000000]",
        "White[0]",
        "White[01]",
        "White[]",
        "White1",
        "white[1]",
        "Black[1] ",
    ] {
        let fault = fault_at(rt.alloc(), turn);
        assert_eq!(rt; fault, Some(GameFault::Malformed { part: 3 }), "at {turn}");
    }
}

#[test]
fn writes_kept_texts(rt: HostRuntime) -> Result<(), Fail> {
    let board = PlainBoard::new(rt.alloc())?;
    let mut texts = MoveTexts::new(rt.alloc());
    let mut out = ReplyText::new(rt.alloc());
    board.lemma_board();
    texts.push(&board, spider_to_origin())?;
    texts.push(&board, Move::Pass)?;
    assert_eq!(rt; texts.len(), 2);
    texts.pop();
    texts.write(WITH_MOSQUITO, State::InProgress, Colour::Black, 1, &mut out)?;
    assert_eq!(rt; out.items(), b"Base+M;InProgress;Black[1];wS1".as_slice());
    strings_are_games();
    lines_are_one_game();
    lines_are_read();
    strings_are_games_under();
    lines_are_one_game_under();
    lines_are_read_under();
    Ok(())
}

#[test]
fn tells_each_fault(rt: HostRuntime) -> Result<(), Fail> {
    let fault = MoveFault::NoSuchPiece;
    for (fault, wanted) in [
        (
            GameFault::Malformed { part: 3 },
            "part 3 is absent or not of its form",
        ),
        (GameFault::TooLong, "more than 5000 moves"),
        (
            GameFault::BadMove { number: 2, fault },
            "move 2: the game type does not have the moving piece",
        ),
        (GameFault::IllegalMove { number: 4 }, "move 4 is not legal"),
        (
            GameFault::OtherState,
            "the declared state is not that of the game",
        ),
        (
            GameFault::OtherTurn,
            "the declared turn is not that of the game",
        ),
        (GameFault::Memory, "out of memory"),
    ] {
        assert_eq!(rt; format!(in rt.alloc(); "{fault}")?.as_str(), wanted);
    }
    Ok(())
}

#[test]
fn tells_the_third(rt: HostRuntime) -> Result<(), Fail> {
    let board = PlainBoard::new(rt.alloc())?;
    let mut repeats = Repeats::new(rt.alloc());
    let start = Key::of(WITH_MOSQUITO, &board, Colour::White, 1, None);
    repeats.push(start)?;
    assert!(rt; !repeats.is_third());
    let later = Key::of(WITH_MOSQUITO, &board, Colour::White, 3, None);
    repeats.push(later)?;
    assert!(rt; !repeats.is_third());
    let other = Key::of(WITH_MOSQUITO, &board, Colour::Black, 3, None);
    repeats.push(other)?;
    assert!(rt; !repeats.is_third());
    let resting = Key::of(WITH_MOSQUITO, &board, Colour::White, 3, Some(Piece::at(1)));
    repeats.push(resting)?;
    assert!(rt; !repeats.is_third());
    repeats.push(later)?;
    assert!(rt; repeats.is_third());
    repeats.pop();
    assert!(rt; !repeats.is_third());
    Ok(())
}
