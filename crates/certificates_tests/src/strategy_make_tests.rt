//! Certificates of the opening: what is written, and what a check answers to each claim.

ghost use Rattle.std.specs.Prelude.{◌≡◌, ◌≤◌};
ghost use Rattle.hive_model.specs.Histories.{position};
ghost use Rattle.hive_model.specs.Legal as rules;

use deepening::Searcher;
use hive_model::{Best, Game, GameType, Move, MoveStack, Piece, Place, State};
use io_edge::MemSink;
use memory_sides::MemSetting;
use plain_game::PlainGame;
use std::alloc::{AllocError, Global};
use std::test::Fail;
use strategy_check::{Checked, Claim, ListIndices, Why, check};
use strategy_make::{MakeFault, make};

const BASE: GameType = GameType {
    mosquito: false,
    ladybug: false,
    pillbug: false,
};

const ONE_PLY: &str = "hive-certificate 1\nBase;NotStarted;White[1]\ndepth 1\nmove wS1\nvalue 0\n";

const TWO_PLIES: &str =
    "hive-certificate 1\nBase;NotStarted;White[1]\ndepth 2\nmove wA1\nvalue 10\n0\n0\n0\n0\n";

/// Whether the game is over.
fn is_over(game: &PlainGame) -> bool
    ensures { result ≡ rules.is_over (position game.now.history) }
{
    match game.state() {
        State::NotStarted | State::InProgress => false,
        State::Draw | State::WhiteWins | State::BlackWins => true,
    }
}

/// The answer to writing the certificate of the opening; `None` if the opening were over.
fn made(
    alloc: Global,
    depth: u32,
    sink: &mut MemSink,
) -> Result<Option<Result<Best, MakeFault>>, AllocError>
    requires { (1 ≤ depth) × (depth ≤ 2) }
{
    let mut game = PlainGame::opening(alloc, BASE)?;
    if is_over(&game) {
        return Ok(None);
    }
    game.reserve(depth)?;
    let mut searcher = Searcher::prepare(alloc, 64, depth)?;
    Ok(Some(make(alloc, &mut searcher, &mut game, depth, sink)))
}

/// The first move, which places the piece of this index.
fn first(index: u8) -> Move {
    Move::To {
        piece: Piece::at(index % 28),
        place: Place { q: 0, r: 0 },
    }
}

#[test]
fn certificates_are_written(rt: HostRuntime) -> Result<(), Fail> {
    let rows = [(1, 1, 0, ONE_PLY), (2, 8, 10, TWO_PLIES)];
    for (depth, index, value, text) in rows {
        let mut sink = MemSetting::of(b"").sink(rt.alloc())?;
        let answer = made(rt.alloc(), depth, &mut sink)?.ok_or("the opening")?;
        let best = first(index);
        assert_eq!(rt; answer, Ok(Best { best, value }));
        assert_eq!(rt; sink.bytes(), text.as_bytes());
    }
    Ok(())
}

#[test]
fn failed_writes_end_a_certificate(rt: HostRuntime) -> Result<(), Fail> {
    for (call, bytes) in [(1, 0), (2, 70), (4, 74)] {
        let mut sink = MemSetting::of(b"").failing(0, call).sink(rt.alloc())?;
        let answer = made(rt.alloc(), 2, &mut sink)?.ok_or("the opening")?;
        assert_eq!(rt; answer, Err(MakeFault::WriteFault));
        assert_eq!(rt; sink.bytes().len(), bytes);
        assert!(rt; TWO_PLIES.as_bytes().starts_with(sink.bytes()));
    }
    Ok(())
}

/// The answer to a certificate of the opening, two plies deep, whose move places the piece of this
/// index.
fn checked(
    alloc: Global,
    index: u8,
    value: u8,
    indices: &[u32],
) -> Result<Checked<Why>, AllocError> {
    let mut game = PlainGame::opening(alloc, BASE)?;
    if is_over(&game) {
        return Ok(Checked::Accepted);
    }
    game.reserve(2)?;
    let mut stack = MoveStack::new(alloc, 2)?;
    let best = first(index);
    let claim = Claim {
        depth: 2,
        best,
        value: i32::from(value),
    };
    let mut list = ListIndices::new(indices);
    Ok(check(&mut game, &claim, &mut list, &mut stack))
}

/// The answer that the first fault is at this place.
fn refused(place: u64, why: Why) -> Checked<Why> {
    Checked::Refused { place, why }
}

#[test]
fn certificates_are_checked(rt: HostRuntime) -> Result<(), Fail> {
    let zeros: &[u32] = &[0, 0, 0, 0];
    let bad: &[u32] = &[24, 0, 0, 0];
    let short: &[u32] = &[0, 0, 0];
    let long: &[u32] = &[0, 0, 0, 0, 0];
    let rows = [
        (8, 10, zeros, Checked::Accepted),
        (8, 10, bad, refused(1, Why::BadIndex)),
        (8, 11, zeros, refused(3, Why::LeafFails)),
        (8, 10, short, refused(3, Why::TooShort)),
        (8, 10, long, refused(4, Why::Rest)),
        (3, 8, zeros, refused(4, Why::LeafFails)),
        (0, 10, zeros, refused(0, Why::NoSuchMove)),
    ];
    for (index, value, indices, answer) in rows {
        assert_eq!(rt; checked(rt.alloc(), index, value, indices)?, answer);
    }
    Ok(())
}
