//! Tests of `euler`: the numbers of a row, of rings and of two hives, and what arcs show beside a
//! hole.

use crate::boards::board_on;
use euler::{euler_number, told_by_arcs};
use std::test::Fail;

/// Parts minus holes. A row is one part, a ring of six has a hole, a filled ring has none, and two
/// separate pieces are two parts. A piece on top does not count.
#[test]
fn parts_less_holes(rt: HostRuntime) -> Result<(), Fail> {
    let row = board_on(rt.alloc(), &[(0, 0), (1, 0), (2, 0), (1, 0)])?;
    assert_eq!(rt; euler_number(&row), 1);
    let six = [(1, 0), (1, -1), (0, -1), (-1, 0), (-1, 1), (0, 1)];
    let ring = board_on(rt.alloc(), &six)?;
    assert_eq!(rt; euler_number(&ring), 0);
    let filled = [(1, 0), (1, -1), (0, -1), (-1, 0), (-1, 1), (0, 1), (0, 0)];
    let disc = board_on(rt.alloc(), &filled)?;
    assert_eq!(rt; euler_number(&disc), 1);
    let apart = board_on(rt.alloc(), &[(0, 0), (3, 0)])?;
    assert_eq!(rt; euler_number(&apart), 2);
    Ok(())
}

/// Two arcs, E and W, show a cut place on a board without holes, and decide nothing with one hole.
/// Three arcs show a cut place with one hole too. One arc never does.
#[test]
fn arcs_beside_holes(rt: HostRuntime) -> Result<(), Fail> {
    assert_eq!(rt; told_by_arcs(0b001001, 1), Some(true));
    assert_eq!(rt; told_by_arcs(0b001001, 0), None);
    assert_eq!(rt; told_by_arcs(0b010101, 0), Some(true));
    assert_eq!(rt; told_by_arcs(0b000111, 0), Some(false));
    Ok(())
}
