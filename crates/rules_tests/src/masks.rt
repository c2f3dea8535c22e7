//! Tests of `arcs`: the arcs, the ends and the row of some masks.

ghost use Rattle.std.specs.Prelude.{◌<◌};

use arcs::{CaseRow, CaseTable, arc_ends, arcs};
use std::process::Abort;

/// Compares the answers for a mask.
fn has(rt: &impl Abort, mask: u8, arc_count: u8, ends: u8)
    requires { mask < 64 }
{
    assert_eq!(rt; arcs(mask), arc_count, "the arcs of {mask}");
    assert_eq!(rt; arc_ends(mask), ends, "the ends of {mask}");
    let wanted = CaseRow {
        arcs: arc_count,
        ends,
    };
    assert_eq!(rt;
        CaseTable::new().row(mask as usize),
        wanted,
        "the row of {mask}"
    );
}

#[test]
fn arcs_ends_and_rows_of_some_masks(rt: HostRuntime) {
    has(&rt, 0, 0, 0);
    has(&rt, 1, 1, 1);
    has(&rt, 7, 1, 5);
    has(&rt, 33, 1, 33);
    has(&rt, 21, 3, 21);
    has(&rt, 31, 1, 17);
    has(&rt, 63, 0, 0);
}
