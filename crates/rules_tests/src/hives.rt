//! Tests of `one_hive`: lines, rings and separate hives.

ghost use Rattle.std.specs.Prelude.{◌≡◌, ◌<◌};

use crate::boards::board_on;
use hive_model::{Board, Place, PlaceList};
use one_hive::{Steps, is_one, separating_places, walk_is_cut};
use stack_board::PlainBoard;
use std::marker::Brand;
use std::sync::ledger::{Blank, Ledger};
use std::test::Fail;

fn is_cut_by<L: Ledger>(board: &PlainBoard, place: Place, blank: Blank) -> bool
    requires name { blank.name ≡ L.name }
    requires parts { blank.parts ≡ L.parts }
    requires some { 0 < L.parts }
{
    let mut steps = Steps::<L>::new(blank);
    board.height(place) > 0 && walk_is_cut(board, place, &mut steps)
}

fn is_cut(board: &PlainBoard, place: Place) -> bool {
    is_cut_by::<Brand>(board, place, Blank::new(1))
}

#[test]
fn middle_of_a_line(rt: HostRuntime) -> Result<(), Fail> {
    let board = board_on(rt.alloc(), &[(0, 0), (1, 0), (2, 0), (1, 0)])?;
    assert!(rt; is_one(&board));
    assert!(rt; is_cut(&board, Place { q: 1, r: 0 }));
    assert!(rt; !is_cut(&board, Place { q: 2, r: 0 }));
    let mut places = PlaceList::new();
    separating_places(&board, &mut places);
    assert_eq!(rt; places.as_slice(), [Place { q: 1, r: 0 }].as_slice());
    Ok(())
}

#[test]
fn ring(rt: HostRuntime) -> Result<(), Fail> {
    let board = board_on(
        rt.alloc(),
        &[(1, 0), (1, -1), (0, -1), (-1, 0), (-1, 1), (0, 1)],
    )?;
    assert!(rt; is_one(&board));
    assert!(rt; !is_cut(&board, Place { q: 1, r: 0 }));
    let mut places = PlaceList::new();
    separating_places(&board, &mut places);
    assert!(rt; places.is_empty());
    Ok(())
}

#[test]
fn ring_with_a_tail(rt: HostRuntime) -> Result<(), Fail> {
    let board = board_on(
        rt.alloc(),
        &[
            (0, 1),
            (1, 0),
            (2, 0),
            (1, -1),
            (0, -1),
            (-1, 0),
            (-1, 1),
            (3, 0),
        ],
    )?;
    let mut places = PlaceList::new();
    separating_places(&board, &mut places);
    assert_eq!(rt;
        places.as_slice(),
        [Place { q: 1, r: 0 }, Place { q: 2, r: 0 }].as_slice()
    );
    Ok(())
}

#[test]
fn two_hives(rt: HostRuntime) -> Result<(), Fail> {
    assert!(rt; is_one(&PlainBoard::new(rt.alloc())?));
    let board = board_on(rt.alloc(), &[(0, 0), (2, 0), (2, 1)])?;
    assert!(rt; !is_one(&board));
    assert!(rt; !is_cut(&board, Place { q: 0, r: 0 }));
    assert!(rt; is_cut(&board, Place { q: 2, r: 1 }));
    let mut places = PlaceList::new();
    separating_places(&board, &mut places);
    assert_eq!(rt;
        places.as_slice(),
        [Place { q: 2, r: 0 }, Place { q: 2, r: 1 }].as_slice()
    );
    Ok(())
}
