//! The lines of verdicts, and what the answers of checks mean.

use certificate_text::HeadFault;
use certificate_verdicts::{
    IndexReasons, TextVerdict, Unread, fault_verdict, tell_judged, verdict_of,
};
use command_runs::Status::{
    self, BadInput, Done, InputFull, Memory, ReadFault, Refused, WriteFault,
};
use game_text::GameFault;
use memory_sides::MemSetting;
use std::alloc::{AllocError, Global};
use std::process::Abort;
use std::test::Fail;
use strategy_check::{Checked, Halt, Why};

/// Writes the line of an answer in memory, and compares the status and everything written. The
/// write of this number fails.
fn expect_told<R: Abort>(
    rt: &R,
    alloc: Global,
    judged: Result<TextVerdict, Unread>,
    failing: u64,
    status: Status,
    written: &str,
) -> Result<(), AllocError> {
    let setting = MemSetting::of(b"").cut(&[7]).failing(0, failing);
    let mut sink = setting.sink(alloc)?;
    let ended = tell_judged(alloc, judged, &mut sink);
    assert_eq!(rt; ended, status, "{written}");
    assert_eq!(rt; sink.bytes(), written.as_bytes(), "{written}");
    Ok(())
}

/// The verdict that the text is refused for this reason, after `place` indices.
fn refused(place: u64, why: Why) -> Result<TextVerdict, Unread> {
    Ok(TextVerdict::Refused { place, why })
}

#[test]
fn verdicts_are_told(rt: HostRuntime) -> Result<(), Fail> {
    let bad = TextVerdict::BadGame {
        fault: GameFault::Malformed { part: 3 },
    };
    for (judged, status, written) in [
        (Ok(TextVerdict::Accepted), Done, "accepted\n"),
        (refused(0, Why::NoSuchMove), Refused, "refused move 0\n"),
        (refused(1, Why::BadIndex), Refused, "refused index 1\n"),
        (refused(3, Why::LeafFails), Refused, "refused leaf 3\n"),
        (refused(12, Why::TooShort), Refused, "refused short 12\n"),
        (refused(4, Why::Rest), Refused, "refused rest 4\n"),
        (
            Ok(TextVerdict::BadCite { place: 2 }),
            Refused,
            "refused cite 2\n",
        ),
        (
            Ok(TextVerdict::BadLine { line: 6 }),
            BadInput,
            "bad line 6\n",
        ),
        (Ok(bad), BadInput, "bad malformed part 3\n"),
        (Ok(TextVerdict::GameOver), BadInput, "bad game over\n"),
        (Err(Unread::ReadFault), ReadFault, ""),
        (Err(Unread::InputFull), InputFull, ""),
        (Err(Unread::Memory), Memory, ""),
    ] {
        expect_told(&rt, rt.alloc(), judged, 0, status, written)?;
    }
    let accepted = Ok(TextVerdict::Accepted);
    expect_told(&rt, rt.alloc(), accepted, 2, WriteFault, "accepte")?;
    Ok(())
}

#[test]
fn answers_of_checks_are_verdicts(rt: HostRuntime) -> Result<(), Fail> {
    let bad = Checked::Halted { answer: Halt::Bad };
    let failed = Checked::Halted {
        answer: Halt::Failed,
    };
    assert_eq!(rt;
        verdict_of::<IndexReasons>(Checked::Accepted, 5, 4),
        Ok(TextVerdict::Accepted)
    );
    assert_eq!(rt;
        verdict_of::<IndexReasons>(bad, 5, 1),
        Ok(TextVerdict::BadLine { line: 6 })
    );
    assert_eq!(rt;
        verdict_of::<IndexReasons>(bad, 4, 3),
        Ok(TextVerdict::BadLine { line: 7 })
    );
    assert_eq!(rt;
        verdict_of::<IndexReasons>(failed, 5, 0),
        Err(Unread::ReadFault)
    );
    assert_eq!(rt;
        fault_verdict(HeadFault::BadLine { line: 2 }),
        Ok(TextVerdict::BadLine { line: 2 })
    );
    assert_eq!(rt; fault_verdict(HeadFault::Memory), Err(Unread::Memory));
    Ok(())
}
