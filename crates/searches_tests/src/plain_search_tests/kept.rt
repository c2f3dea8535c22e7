//! What a table keeps, and what it saves a search.

use crate::plain_search_tests::{BASE, BEFORE_A_WIN, plays};
use hive_model::{Game, MoveStack, Place};
use io_edge::StepClock;
use plain_game::PlainGame;
use plain_search::minimax;
use search_core::{Node, Ticker, Window, Workspace, reply, search};
use std::alloc::{AllocError, Global};
use std::test::Fail;
use value_table::{Bound, Entry, ValueTable};

/// The value of the position with one ply searched, as an entry; `None` if the game is too long to
/// go on.
fn exact(alloc: Global, game: &mut PlainGame) -> Result<Option<Entry>, AllocError> {
    if game.plies() > 100 {
        return Ok(None);
    }
    game.reserve(1)?;
    let mut stack = MoveStack::new(alloc, 1)?;
    let value = minimax(game, 1, &mut stack);
    Ok(Some(Entry::new(game.key(), 1, Bound::Exact, value, None)))
}

/// The same of the position after this piece was placed on the origin.
fn exact_after(alloc: Global, index: u8) -> Result<Option<Entry>, AllocError> {
    let mut game = PlainGame::opening(alloc, BASE)?;
    if !plays(&mut game, index, Place { q: 0, r: 0 })? {
        return Ok(None);
    }
    exact(alloc, &mut game)
}

/// Whether the table keeps this entry for its key and its depth.
fn keeps(table: &mut ValueTable, entry: Entry) -> bool {
    let known = entry.known();
    let Some(found) = table.look(&entry.key(), known.depth()) else {
        return false;
    };
    found.bound() == known.bound() && found.value() == known.value()
}

#[test]
fn first_of_three_is_forgotten(rt: HostRuntime) -> Result<(), Fail> {
    let mut game = PlainGame::opening(rt.alloc(), BASE)?;
    let opening = exact(rt.alloc(), &mut game)?.ok_or("the opening")?;
    let spider = exact_after(rt.alloc(), 1)?.ok_or("wS1")?;
    let beetle = exact_after(rt.alloc(), 3)?.ok_or("wB1")?;
    let mut table = ValueTable::new(rt.alloc(), 2)?;
    for entry in [opening, spider, beetle] {
        table.keep(entry);
    }
    assert!(rt; table.look(&opening.key(), 1).is_none());
    assert!(rt; keeps(&mut table, spider));
    assert!(rt; keeps(&mut table, beetle));
    assert!(rt; table.look(&beetle.key(), 2).is_none());
    assert_eq!(rt; spider.known().value(), -4);
    assert_eq!(rt; beetle.known().value(), -8);
    Ok(())
}

const WIDEST: Window = Window {
    alpha: -1_000_100,
    beta: 1_000_100,
};

/// A workspace for a search of at most two plies, with an empty table.
fn workspace(alloc: Global) -> Result<Workspace, AllocError> {
    let stack = MoveStack::new(alloc, 2)?;
    let table = ValueTable::new(alloc, 65536)?;
    Ok(Workspace::new(stack, table, Ticker::free()))
}

/// How many moves a search two plies deep plays in this workspace.
fn plays_of_two_plies(game: &mut PlainGame, work: &mut Workspace) -> Result<u64, AllocError> {
    if game.plies() > 100 || work.stack.free_levels() < 2 {
        return Ok(0);
    }
    game.reserve(2)?;
    let before = game.played();
    let mut clock = StepClock::new(0, 1);
    let node = Node {
        depth: 2,
        window: WIDEST,
    };
    let _ = search(game, node, work, &mut clock);
    Ok(game.played().saturating_sub(before))
}

/// How many moves are played when each legal move is searched one ply deep in this workspace.
fn plays_of_children(
    alloc: Global,
    game: &mut PlainGame,
    work: &mut Workspace,
) -> Result<u64, AllocError> {
    let mut listed = MoveStack::new(alloc, 1)?;
    game.list(&mut listed);
    let mut clock = StepClock::new(0, 1);
    let before = game.played();
    let node = Node {
        depth: 1,
        window: WIDEST,
    };
    for i in 0..listed.level_len(0) {
        let m = listed.get(0, i);
        if game.plies() > 100 || work.stack.free_levels() < 1 {
            return Ok(0);
        }
        game.reserve(2)?;
        if game.is_legal(m.again()) {
            let _ = reply(game, m, node, work, &mut clock);
        }
    }
    Ok(game.played().saturating_sub(before))
}

/// The game in which white has passed by a winning move and placed an ant, so that it wins after
/// nearly each answer. A game never values a move that surrounds a queen without a play, so the
/// search plays it unless a table knows the value.
fn before_a_loss(alloc: Global) -> Result<Option<PlainGame>, AllocError> {
    let mut game = PlainGame::opening(alloc, BASE)?;
    for (index, q, r) in BEFORE_A_WIN {
        if !plays(&mut game, index, Place { q, r })? {
            return Ok(None);
        }
    }
    if !plays(&mut game, 9, Place { q: -2, r: 0 })? {
        return Ok(None);
    }
    Ok(Some(game))
}

#[test]
fn table_spares_a_search_its_children(rt: HostRuntime) -> Result<(), Fail> {
    let mut game = before_a_loss(rt.alloc())?.ok_or("a loss")?;
    let without = plays_of_two_plies(&mut game, &mut workspace(rt.alloc())?)?;
    let mut work = workspace(rt.alloc())?;
    assert!(rt; plays_of_children(rt.alloc(), &mut game, &mut work)? > 0);
    let with = plays_of_two_plies(&mut game, &mut work)?;
    assert!(rt; with < without);
    Ok(())
}

#[test]
fn table_spares_children_after_a_search(rt: HostRuntime) -> Result<(), Fail> {
    let mut game = before_a_loss(rt.alloc())?.ok_or("a loss")?;
    let without = plays_of_children(rt.alloc(), &mut game, &mut workspace(rt.alloc())?)?;
    let mut work = workspace(rt.alloc())?;
    assert!(rt; plays_of_two_plies(&mut game, &mut work)? > 0);
    let with = plays_of_children(rt.alloc(), &mut game, &mut work)?;
    assert!(rt; with > 0);
    assert!(rt; with < without);
    Ok(())
}
