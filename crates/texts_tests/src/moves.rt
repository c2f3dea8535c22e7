//! Tests of `move_text`: each form of a move text, each fault, and each field once.

ghost use Rattle.std.specs.Prelude.{◌≡◌};

use arrayvec::ArrayString;
use hive_model::{Board, GameType, Move, Piece, Place, State};
use move_text::{
    MoveFault, read_move, read_number, read_state, read_time, read_type, state_text, texts_denote,
    time_text, type_text, write_move,
};
use stack_board::PlainBoard;
use std::test::Fail;

const BASE: GameType = GameType {
    mosquito: false,
    ladybug: false,
    pillbug: false,
};

const WITH_ALL: GameType = GameType {
    mosquito: true,
    ladybug: true,
    pillbug: true,
};

fn white_spider() -> Piece {
    Piece::at(1)
}

fn white_ant() -> Piece {
    Piece::at(8)
}

fn white_mosquito() -> Piece {
    Piece::at(11)
}

fn black_spider() -> Piece {
    Piece::at(15)
}

fn place(q: i8, r: i8) -> Place
    ensures { result ≡ record { q = q; r = r } }
{
    Place {
        q: q as i32,
        r: r as i32,
    }
}

fn to(piece: Piece, q: i8, r: i8) -> Result<Move, MoveFault> {
    Ok(Move::To {
        piece,
        place: place(q, r),
    })
}

fn no_text(at: u32) -> Result<Move, MoveFault> {
    Err(MoveFault::NotAMove { at })
}

fn read(game_type: GameType, board: &PlainBoard, text: &str) -> Result<Move, MoveFault> {
    board.lemma_board();
    let bytes = text.as_bytes();
    let end = bytes.len().min(16);
    read_move(game_type, board, &bytes[..end])
}

fn put(board: &mut PlainBoard, piece: Piece, q: i8, r: i8) {
    if board.spot(piece).is_none() {
        board.put(piece, place(q, r));
    }
}

fn written(board: &PlainBoard, piece: Piece, q: i8, r: i8) -> ArrayString<16> {
    board.lemma_board();
    write_move(
        board,
        Move::To {
            piece,
            place: place(q, r),
        },
    )
}

fn written_pass(board: &PlainBoard) -> ArrayString<16> {
    board.lemma_board();
    write_move(board, Move::Pass)
}

#[test]
fn reads_on_an_empty_board(rt: HostRuntime) -> Result<(), Fail> {
    let board = PlainBoard::new(rt.alloc())?;
    assert_eq!(rt; read(BASE, &board, "pass"), Ok(Move::Pass));
    assert_eq!(rt; read(BASE, &board, "wS1"), to(white_spider(), 0, 0));
    assert_eq!(rt; read(WITH_ALL, &board, "wM"), to(white_mosquito(), 0, 0));
    assert_eq!(rt;
        read(BASE, &board, "bS1 wS1-"),
        Err(MoveFault::NotInPlay {
            piece: white_spider()
        })
    );
    Ok(())
}

#[test]
fn reads_each_form(rt: HostRuntime) -> Result<(), Fail> {
    let mut board = PlainBoard::new(rt.alloc())?;
    put(&mut board, white_spider(), 0, 0);
    let spider = black_spider();
    for (text, wanted) in [
        ("pass", Ok(Move::Pass)),
        ("bS1 wS1-", to(spider, 1, 0)),
        ("bS1 -wS1", to(spider, -1, 0)),
        ("bS1 wS1/", to(spider, 1, -1)),
        ("bS1 /wS1", to(spider, -1, 1)),
        ("bS1 \\wS1", to(spider, 0, -1)),
        ("bS1 wS1\\", to(spider, 0, 1)),
        ("bS1 wS1", to(spider, 0, 0)),
    ] {
        assert_eq!(rt; read(BASE, &board, text), wanted, "at {text}");
    }
    Ok(())
}

#[test]
fn refuses_each_fault(rt: HostRuntime) -> Result<(), Fail> {
    let mut board = PlainBoard::new(rt.alloc())?;
    put(&mut board, white_spider(), 0, 0);
    for (text, wanted) in [
        ("", no_text(0)),
        ("p", no_text(1)),
        ("play", no_text(1)),
        ("wS", no_text(2)),
        ("wS3", no_text(2)),
        ("wS1 ", no_text(4)),
        ("wS1 -", no_text(5)),
        ("wS1 wQ-x", no_text(7)),
        ("wS1", no_text(3)),
        ("wM", Err(MoveFault::NoSuchPiece)),
        ("bS1 wA1-", Err(MoveFault::NotInPlay { piece: white_ant() })),
        (
            "wS1 wS1-",
            Err(MoveFault::NotInPlay {
                piece: white_spider(),
            }),
        ),
    ] {
        assert_eq!(rt; read(BASE, &board, text), wanted, "at {text}");
    }
    Ok(())
}

#[test]
fn writes_by_the_first_neighbour(rt: HostRuntime) -> Result<(), Fail> {
    let mut board = PlainBoard::new(rt.alloc())?;
    put(&mut board, white_spider(), 0, 0);
    let spider = black_spider();
    for (q, r, wanted) in [
        (0, 0, "bS1 wS1"),
        (1, 0, "bS1 wS1-"),
        (-1, 0, "bS1 -wS1"),
        (1, -1, "bS1 wS1/"),
        (-1, 1, "bS1 /wS1"),
        (0, -1, "bS1 \\wS1"),
        (0, 1, "bS1 wS1\\"),
    ] {
        assert_eq!(rt; written(&board, spider, q, r).as_str(), wanted);
    }
    assert_eq!(rt; written_pass(&board).as_str(), "pass");
    Ok(())
}

#[test]
fn writes_without_the_moving_piece(rt: HostRuntime) -> Result<(), Fail> {
    let mut board = PlainBoard::new(rt.alloc())?;
    assert_eq!(rt; written(&board, white_spider(), 0, 0).as_str(), "wS1");
    put(&mut board, white_spider(), 0, 0);
    put(&mut board, black_spider(), 1, 0);
    assert_eq!(rt; written(&board, black_spider(), 0, 1).as_str(), "bS1 wS1\\");
    assert_eq!(rt; written(&board, white_ant(), 0, 1).as_str(), "wA1 /bS1");
    texts_denote();
    Ok(())
}

#[test]
fn reads_and_writes_fields(rt: HostRuntime) {
    assert_eq!(rt; read_type(b"Base+MLP"), Some(WITH_ALL));
    assert_eq!(rt; read_type(b"Base+PL"), None);
    assert_eq!(rt; type_text(WITH_ALL).as_str(), "Base+MLP");
    assert_eq!(rt; read_state(b"WhiteWins"), Some(State::WhiteWins));
    assert_eq!(rt; state_text(State::Draw).as_str(), "Draw");
    assert_eq!(rt; read_number(b"10", 1, 10), Some(10));
    assert_eq!(rt; read_number(b"010", 1, 10), None);
    assert_eq!(rt; read_number(b"0", 1, 10), None);
    assert_eq!(rt; read_time(b"01:02:03"), Some(3_723_000));
    assert_eq!(rt; read_time(b"00:60:00"), None);
    assert_eq!(rt; time_text(3_723_000).as_str(), "01:02:03");
}
