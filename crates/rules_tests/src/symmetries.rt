//! Tests of `symmetry`: where symmetries map places, and boards that are alike.

use crate::boards::board_on;
use hive_model::{Colour, GameType, Key, Move, Piece, Place};
use stack_board::PlainBoard;
use std::alloc::{AllocError, Global};
use std::test::Fail;
use symmetry::{Symmetry, alike, own_symmetries};

/// The place to which the symmetry of this number maps these coordinates.
fn taken(index: u8, q: i32, r: i32) -> (i32, i32) {
    if index < 12 && -9 <= q && q <= 9 && -9 <= r && r <= 9 {
        let place = Symmetry::at(index).place(Place { q, r });
        (place.q, place.r)
    } else {
        (q, r)
    }
}

#[test]
fn places(rt: HostRuntime) -> Result<(), Fail> {
    assert_eq!(rt; taken(1, 1, 0), (0, 1));
    assert_eq!(rt; taken(1, 1, -1), (1, 0));
    assert_eq!(rt; taken(6, 1, -1), (-1, 1));
    assert_eq!(rt; taken(7, 1, 0), (-1, 1));
    for index in 0..12u8 {
        assert_eq!(rt; taken(index, 0, 0), (0, 0));
    }
    Ok(())
}

/// The key of a board with the first pieces on these places, in turn.
fn key_on(alloc: Global, places: &[(i32, i32)]) -> Result<Key, AllocError> {
    let board = board_on(alloc, places)?;
    Ok(key_of(&board))
}

fn key_of(board: &PlainBoard) -> Key {
    let game_type = GameType {
        mosquito: false,
        ladybug: false,
        pillbug: false,
    };
    Key::of(game_type, board, Colour::White, 7, None)
}

fn shift(from: &Key, to: &Key, index: u8) -> Option<(i32, i32)> {
    if index < 12 {
        alike(from, to, Symmetry::at(index)).map(|place| (place.q, place.r))
    } else {
        None
    }
}

#[test]
fn shifts(rt: HostRuntime) -> Result<(), Fail> {
    let empty = key_on(rt.alloc(), &[])?;
    let line = key_on(rt.alloc(), &[(0, 0), (1, 0), (2, 0)])?;
    let turned = key_on(rt.alloc(), &[(3, -1), (3, 0), (3, 1)])?;
    let other = key_on(rt.alloc(), &[(3, -1), (3, 1), (3, 0)])?;
    let stacked = key_on(rt.alloc(), &[(3, -1), (3, 0), (3, 0)])?;
    assert_eq!(rt; shift(&empty, &empty, 5), Some((0, 0)));
    assert_eq!(rt; shift(&empty, &line, 0), None);
    assert_eq!(rt; shift(&line, &empty, 0), None);
    assert_eq!(rt; shift(&line, &turned, 1), Some((3, -1)));
    assert_eq!(rt; shift(&line, &turned, 6), Some((3, -1)));
    assert_eq!(rt; shift(&line, &turned, 0), None);
    assert_eq!(rt; shift(&line, &other, 1), None);
    assert_eq!(rt; shift(&line, &stacked, 1), None);
    assert_eq!(rt; shift(&line, &line, 0), Some((0, 0)));
    Ok(())
}

/// How many symmetries other than the identity a board has, with the first pieces on these places.
fn own_count(alloc: Global, places: &[(i32, i32)]) -> Result<usize, AllocError> {
    let key = key_on(alloc, places)?;
    Ok(own_symmetries(&key).len())
}

#[test]
fn own(rt: HostRuntime) -> Result<(), Fail> {
    assert_eq!(rt; own_count(rt.alloc(), &[])?, 11);
    assert_eq!(rt; own_count(rt.alloc(), &[(2, 3)])?, 11);
    assert_eq!(rt; own_count(rt.alloc(), &[(2, 3), (2, 3)])?, 11);
    assert_eq!(rt; own_count(rt.alloc(), &[(0, 0), (1, 0)])?, 1);
    assert_eq!(rt; own_count(rt.alloc(), &[(0, 0), (1, 0), (2, 0)])?, 1);
    assert_eq!(rt; own_count(rt.alloc(), &[(0, 0), (1, 0), (0, 1)])?, 0);
    Ok(())
}

/// For a row of two, the places on its two sides are each other's images.
#[test]
fn images(rt: HostRuntime) -> Result<(), Fail> {
    let key = key_on(rt.alloc(), &[(3, 0), (4, 0)])?;
    let piece = Piece::at(5);
    for symmetry in own_symmetries(&key).as_slice() {
        let place = Place { q: 4, r: -1 };
        let image = symmetry.image_of(Move::To { piece, place });
        let below = Place { q: 3, r: 1 };
        assert_eq!(rt;
            image,
            Move::To {
                piece,
                place: below
            }
        );
        assert_eq!(rt; symmetry.image_of(Move::Pass), Move::Pass);
    }
    Ok(())
}
