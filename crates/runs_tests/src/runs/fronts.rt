//! Each initial part of a certificate, checked.

use crate::runs::commands::CERTIFICATE;
use crate::runs::expect_run;
use hive_cli::Status::{self, BadInput, Done, Refused};
use memory_sides::{CUTS, MemSetting};
use std::test::Fail;

/// The initial parts of the certificate, by their least and greatest number of bytes, and what a
/// check of each of them answers.
const FRONTS: [(usize, usize, Status, &str); 14] = [
    // no line, or a part of the first one
    (0, 17, BadInput, "bad line 1\n"),
    // the first line, with or without its LF
    (18, 19, BadInput, "bad line 2\n"),
    // `B`, `Ba`, `Bas`
    (20, 22, BadInput, "bad malformed part 1\n"),
    // `Base`, which is a game
    (23, 23, BadInput, "bad line 3\n"),
    // `Base;` to `Base;NotStarte`
    (24, 33, BadInput, "bad malformed part 2\n"),
    // `Base;NotStarted` to `Base;NotStarted;White[1`
    (34, 42, BadInput, "bad malformed part 3\n"),
    // the second line, up to `depth `
    (43, 50, BadInput, "bad line 3\n"),
    // `depth 2`, up to `move `
    (51, 57, BadInput, "bad line 4\n"),
    // `move w`, up to `value `
    (58, 67, BadInput, "bad line 5\n"),
    // `value 1` and `value 10`, with or without its LF
    (68, 70, Refused, "refused short 0\n"),
    // this number of indices, the last with or without its LF
    (71, 72, Refused, "refused short 1\n"),
    (73, 74, Refused, "refused short 2\n"),
    (75, 76, Refused, "refused short 3\n"),
    (77, 78, Done, "accepted\n"),
];

#[test]
fn each_front_of_a_certificate_is_checked(rt: HostRuntime) -> Result<(), Fail> {
    let text = CERTIFICATE.as_bytes();
    let mut next: usize = 0;
    for (least, most, status, written) in FRONTS {
        assert_eq!(rt; least, next);
        for bytes in least..=most {
            let setting = MemSetting::of(&text[..bytes.min(text.len())]);
            for pieces in CUTS {
                let setting = setting.cut(pieces);
                expect_run(&rt, rt.alloc(), &["check"], setting, status, written)?;
            }
        }
        next = most.saturating_add(1);
    }
    assert_eq!(rt; next, text.len().saturating_add(1));
    Ok(())
}
