//! Lemmas of several keys, and which of them is found first.

use hive_model::{Board, Colour, GameType, Key, Piece, Place};
use stack_board::PlainBoard;
use std::alloc::{AllocError, Global};
use std::test::Fail;
use strategy_lemmas::Lemmas;

/// The key of a board with one piece, `q` steps along.
fn key_at(alloc: Global, q: i32) -> Result<Key, AllocError> {
    let mut board = PlainBoard::new(alloc)?;
    let piece = Piece::at(0);
    if 0 <= q && q < 9 && board.spot(piece).is_none() {
        board.put(piece, Place { q, r: 0 });
    }
    let game_type = GameType {
        mosquito: false,
        ladybug: false,
        pillbug: false,
    };
    Ok(Key::of(game_type, &board, Colour::White, 7, None))
}

/// Two keys, two depths and several values. The lemmas of each key are between those of the other.
fn several(alloc: Global, one: Key, other: Key) -> Result<Lemmas, AllocError> {
    let mut lemmas = Lemmas::new(alloc)?;
    lemmas.keep(one, 2, -5);
    lemmas.keep(other, 2, 40);
    lemmas.keep(one, 3, 40);
    lemmas.keep(one, 2, 10);
    lemmas.keep(other, 2, -7);
    lemmas.keep(one, 2, 10);
    lemmas.keep(one, 2, 3);
    Ok(lemmas)
}

#[test]
fn an_empty_list_has_none(rt: HostRuntime) -> Result<(), Fail> {
    let lemmas = Lemmas::new(rt.alloc())?;
    let one = key_at(rt.alloc(), 1)?;
    assert!(rt; lemmas.first(&one, 2, -5).is_none());
    assert!(rt; !lemmas.serves(0, &one, 2, -5));
    Ok(())
}

#[test]
fn the_first_of_several_is_found(rt: HostRuntime) -> Result<(), Fail> {
    let one = key_at(rt.alloc(), 1)?;
    let other = key_at(rt.alloc(), 2)?;
    let third = key_at(rt.alloc(), 3)?;
    let lemmas = several(rt.alloc(), one, other)?;
    assert_eq!(rt; lemmas.first(&one, 2, -9), Some(0));
    assert_eq!(rt; lemmas.first(&one, 2, 3), Some(3));
    assert_eq!(rt; lemmas.first(&one, 2, 10), Some(3));
    assert_eq!(rt; lemmas.first(&one, 2, 11), None);
    assert_eq!(rt; lemmas.first(&one, 3, 3), Some(2));
    assert_eq!(rt; lemmas.first(&one, 1, 3), None);
    assert_eq!(rt; lemmas.first(&other, 2, -7), Some(1));
    assert_eq!(rt; lemmas.first(&other, 3, -7), None);
    assert_eq!(rt; lemmas.first(&third, 2, -9), None);
    Ok(())
}

#[test]
fn a_cited_lemma_serves(rt: HostRuntime) -> Result<(), Fail> {
    let one = key_at(rt.alloc(), 1)?;
    let other = key_at(rt.alloc(), 2)?;
    let lemmas = several(rt.alloc(), one, other)?;
    assert!(rt; lemmas.serves(5, &one, 2, 10));
    assert!(rt; !lemmas.serves(5, &one, 2, 11));
    assert!(rt; !lemmas.serves(5, &other, 2, 10));
    assert!(rt; !lemmas.serves(7, &one, 2, -9));
    Ok(())
}

#[test]
fn a_cleared_list_begins_anew(rt: HostRuntime) -> Result<(), Fail> {
    let one = key_at(rt.alloc(), 1)?;
    let other = key_at(rt.alloc(), 2)?;
    let mut lemmas = several(rt.alloc(), one, other)?;
    lemmas.clear();
    assert_eq!(rt; lemmas.first(&one, 2, -9), None);
    lemmas.keep(other, 4, 6);
    lemmas.keep(one, 4, 6);
    assert_eq!(rt; lemmas.first(&one, 4, 6), Some(1));
    assert_eq!(rt; lemmas.first(&other, 4, 6), Some(0));
    Ok(())
}
