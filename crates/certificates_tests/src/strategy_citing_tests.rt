//! Citing certificates of the opening, two plies deep: reading, checking and writing them.

ghost use Rattle.std.specs.Prelude.{◌≡◌, pos};
ghost use Rattle.hive_model.specs.Histories.{position};
ghost use Rattle.hive_model.specs.Legal as rules;

use certificate_citing::{LineTokens, Migrated, migrate};
use hive_model::{Game, GameType, Move, MoveStack, Piece, Place, State};
use io_edge::MemSink;
use line_feed::LineReader;
use memory_sides::{CUTS, MemSetting};
use plain_game::PlainGame;
use std::alloc::{AllocError, Global};
use std::test::Fail;
use strategy_check::{Checked, Claim, Halt, ListIndices, Why};
use strategy_lemmas::{Lemmas, WhyCited, check_cited};

const BASE: GameType = GameType {
    mosquito: false,
    ladybug: false,
    pillbug: false,
};

/// Whether the game is over.
fn is_over(game: &PlainGame) -> bool
    ensures { result ≡ rules.is_over (position game.now.history) }
{
    match game.state() {
        State::NotStarted | State::InProgress => false,
        State::Draw | State::WhiteWins | State::BlackWins => true,
    }
}

/// The claim that placing White's first ant is best, and worth 10.
fn claim() -> Claim
    ensures { (result.depth ≡ 2) × (result.value ≡ pos 10) }
{
    Claim {
        depth: 2,
        best: Move::To {
            piece: Piece::at(8),
            place: Place { q: 0, r: 0 },
        },
        value: 10,
    }
}

/// What a check of these lines answers, and how many lines it took; `None` if the opening were
/// over.
fn cited(
    alloc: Global,
    setting: MemSetting<'_>,
) -> Result<Option<(Checked<WhyCited>, u64)>, AllocError> {
    let mut game = PlainGame::opening(alloc, BASE)?;
    if is_over(&game) {
        return Ok(None);
    }
    game.reserve(2)?;
    let mut stack = MoveStack::new(alloc, 2)?;
    let mut lemmas = Lemmas::new(alloc)?;
    let mut source = setting.source(alloc)?;
    let mut reader = LineReader::new(alloc)?;
    let mut tokens = LineTokens::new(&mut reader, &mut source);
    let answer = check_cited(&mut game, &claim(), &mut tokens, &mut lemmas, &mut stack);
    Ok(Some((answer, tokens.lines())))
}

/// The answer that the first fault is at this place.
fn refused(place: u64, why: WhyCited) -> Checked<WhyCited> {
    Checked::Refused { place, why }
}

#[test]
fn tokens_stand_one_a_line(rt: HostRuntime) -> Result<(), Fail> {
    let bad = Checked::Halted { answer: Halt::Bad };
    let rows = [
        ("0\n0\n0\n0\n", Checked::Accepted, 4),
        ("@0\n0\n0\n0\n", refused(1, WhyCited::BadCite), 1),
        ("0\n@0\n0\n0\n", refused(2, WhyCited::BadCite), 2),
        ("@65535\n0\n0\n0\n", refused(1, WhyCited::BadCite), 1),
        ("@65536\n0\n0\n0\n", bad, 1),
        ("0\n@\n0\n0\n", bad, 2),
        ("0\n0\n0\n0\n@0\n", refused(4, WhyCited::Rest), 5),
        ("0\n0\n0", refused(3, WhyCited::TooShort), 3),
    ];
    for (lines, answer, taken) in rows {
        for pieces in CUTS {
            let setting = MemSetting::of(lines.as_bytes()).cut(pieces);
            let found = cited(rt.alloc(), setting)?.ok_or("the opening")?;
            assert_eq!(rt; found, (answer, taken), "{lines:?}, {setting}");
        }
    }
    let failed = Checked::Halted {
        answer: Halt::Failed,
    };
    let setting = MemSetting::of(b"0\n0\n").cut(&[2]).failing(2, 0);
    let found = cited(rt.alloc(), setting)?.ok_or("the opening")?;
    assert_eq!(rt; found, (failed, 1));
    Ok(())
}

/// The answer to the migration of these indices; `None` if the opening were over.
fn migrated(
    alloc: Global,
    indices: &[u32],
    sink: &mut MemSink,
) -> Result<Option<Migrated>, AllocError> {
    let mut game = PlainGame::opening(alloc, BASE)?;
    if is_over(&game) {
        return Ok(None);
    }
    game.reserve(2)?;
    let mut stack = MoveStack::new(alloc, 2)?;
    let mut list = ListIndices::new(indices);
    Ok(Some(migrate(
        alloc,
        &mut game,
        &claim(),
        &mut list,
        b"head\n".as_slice(),
        &mut stack,
        sink,
    )))
}

#[test]
fn indices_become_tokens(rt: HostRuntime) -> Result<(), Fail> {
    let zeros: &[u32] = &[0, 0, 0, 0];
    let bad: &[u32] = &[24, 0, 0, 0];
    let short: &[u32] = &[0, 0, 0];
    let why_bad = Migrated::Refused {
        place: 1,
        why: Why::BadIndex,
    };
    let why_short = Migrated::Refused {
        place: 3,
        why: Why::TooShort,
    };
    let rows = [
        (zeros, 0, Migrated::Done, "head\n0\n0\n0\n0\n"),
        (zeros, 1, Migrated::WriteFault, ""),
        (zeros, 2, Migrated::WriteFault, "head\n"),
        (bad, 0, why_bad, ""),
        (short, 0, why_short, ""),
    ];
    for (indices, fails, answer, written) in rows {
        let mut sink = MemSetting::of(b"").failing(0, fails).sink(rt.alloc())?;
        let found = migrated(rt.alloc(), indices, &mut sink)?.ok_or("the opening")?;
        assert_eq!(rt; found, answer);
        assert_eq!(rt; sink.bytes(), written.as_bytes());
    }
    Ok(())
}
