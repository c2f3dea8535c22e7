//! The worked list of steps at a root.

use root_share::{RootCore, RootStep, RootVerdict};
use std::test::Fail;

/// Four children: two are worth 7, one is below the bound, and one is never taken.
#[test]
fn first_of_two_equal_children(rt: HostRuntime) -> Result<(), Fail> {
    let mut core = RootCore::new(rt.alloc(), 4)?;
    assert_eq!(rt; core.bound(), -1_000_090);
    assert_eq!(rt; core.best_child(), None);
    core.step(RootStep::Take { child: 2 });
    core.step(RootStep::Close {
        child: 2,
        verdict: RootVerdict::Exact { value: 7 },
    });
    core.step(RootStep::Take { child: 0 });
    core.step(RootStep::Take { child: 1 });
    core.step(RootStep::Close {
        child: 1,
        verdict: RootVerdict::Exact { value: 7 },
    });
    core.step(RootStep::Close {
        child: 0,
        verdict: RootVerdict::Below { bound: 7 },
    });
    assert_eq!(rt; core.bound(), 7);
    assert_eq!(rt; core.best_child(), Some((1, 7)));
    Ok(())
}
