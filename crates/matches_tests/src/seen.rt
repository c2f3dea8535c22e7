//! What is observed of a match, a cup or a tournament at its end.

use command_runs::Status;
use memory_sides::Played;
use std::process::Abort;

/// Compares how a run ended, all that it wrote, and how many links were closed.
pub(crate) fn expect_seen<R: Abort>(
    rt: &R,
    seen: &Played<Status>,
    status: Status,
    written: &[u8],
    closed: usize,
) {
    assert_eq!(rt; seen.status, status);
    assert_eq!(rt; seen.output.bytes(), written);
    assert_eq!(rt; seen.spawner.closed().len(), closed);
}

/// Compares what was sent to the programs that were started first, in their order.
pub(crate) fn expect_sent<R: Abort>(rt: &R, seen: &Played<Status>, texts: &[&[u8]]) {
    for (number, text) in texts.iter().enumerate() {
        assert_eq!(rt;
            seen.sent(number),
            *text,
            "to the program at place {number}"
        );
    }
}

/// Compares a run with an output that failed after this number of bytes of its text, and how many
/// links were closed.
pub(crate) fn expect_cut<R: Abort>(
    rt: &R,
    seen: &Played<Status>,
    text: &[u8],
    written: usize,
    closed: usize,
) {
    assert!(rt; text.starts_with(seen.output.bytes()));
    assert_eq!(rt; seen.output.bytes().len(), written);
    assert_eq!(rt; seen.status, Status::WriteFault);
    assert_eq!(rt; seen.spawner.closed().len(), closed);
}
