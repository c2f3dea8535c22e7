//! Matches in which a read or a write fails.

use super::{BLACK, Ending, TO_BLACK, TO_WHITE, WHITE, ends_so, is_ending, played, said};
use hive_model::Colour;
use memory_sides::MemSetting;
use std::alloc::{AllocError, Global};
use std::test::Fail;

/// That black broke.
const BLACK_BROKE: Ending = Ending {
    side: Colour::Black,
    cause: "broke",
    line: "",
};

/// That white broke.
const WHITE_BROKE: Ending = Ending {
    side: Colour::White,
    cause: "broke",
    line: "",
};

#[test]
fn a_read_that_fails_breaks_its_side(rt: HostRuntime) -> Result<(), Fail> {
    let mut black = MemSetting::of(BLACK).failing(2, 0).link(rt.alloc())?;
    let holds = ends_so(rt.alloc(), &mut black, BLACK_BROKE)?;
    assert!(rt; holds, "at the second read");
    Ok(())
}

/// Whether the match with an illegal move at its end ends in this way. The read and the write with
/// these numbers fail at white's link, and at black's. Initial parts of the lines are sent.
fn fails_so(
    alloc: Global,
    white: (u64, u64),
    black: (u64, u64),
    ending: Ending,
) -> Result<bool, AllocError> {
    let text = said(alloc, "bQ -wS1\n", 1, "ok\n")?;
    let setting = MemSetting::of(WHITE).cut(&[7]);
    let mut white = setting.failing(white.0, white.1).link(alloc)?;
    let setting = MemSetting::of(text.as_slice()).cut(&[7]);
    let mut black = setting.failing(black.0, black.1).link(alloc)?;
    let referee = played(alloc, &mut white, &mut black)?;
    Ok(
        is_ending(referee.verdict(), ending)
            && TO_WHITE.starts_with(white.sent())
            && TO_BLACK.starts_with(black.sent()),
    )
}

#[test]
fn a_read_of_white_breaks_white(rt: HostRuntime) -> Result<(), Fail> {
    for call in 1..5u64 {
        let holds = fails_so(rt.alloc(), (call, 0), (0, 0), WHITE_BROKE)?;
        assert!(rt; holds, "at read {call}");
    }
    Ok(())
}

#[test]
fn a_write_of_white_breaks_white(rt: HostRuntime) -> Result<(), Fail> {
    for call in 1..5u64 {
        let holds = fails_so(rt.alloc(), (0, call), (0, 0), WHITE_BROKE)?;
        assert!(rt; holds, "at write {call}");
    }
    Ok(())
}

#[test]
fn a_read_of_black_breaks_black(rt: HostRuntime) -> Result<(), Fail> {
    for call in 1..5u64 {
        let holds = fails_so(rt.alloc(), (0, 0), (call, 0), BLACK_BROKE)?;
        assert!(rt; holds, "at read {call}");
    }
    Ok(())
}

#[test]
fn a_write_of_black_breaks_black(rt: HostRuntime) -> Result<(), Fail> {
    for call in 1..5u64 {
        let holds = fails_so(rt.alloc(), (0, 0), (0, call), BLACK_BROKE)?;
        assert!(rt; holds, "at write {call}");
    }
    Ok(())
}

#[test]
fn a_fault_that_does_not_come_breaks_none(rt: HostRuntime) -> Result<(), Fail> {
    let ending = Ending {
        side: Colour::Black,
        cause: "illegal",
        line: "bQ -wS1",
    };
    let holds = fails_so(rt.alloc(), (99, 99), (99, 99), ending)?;
    assert!(rt; holds, "at no fault");
    Ok(())
}
