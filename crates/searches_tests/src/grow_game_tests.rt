//! Games of known seeds.

use deepening::Searcher;
use game_text::write_game;
use grow_game::grow;
use hive_model::{Game, Move, MoveStack, Piece, Place, ReplyText};
use plain_game::PlainGame;
use std::test::Fail;

/// White places a grasshopper first, and black's best answer is `bS1 -wG1`.
#[test]
fn one_ply_of_seed_zero(rt: HostRuntime) -> Result<(), Fail> {
    let mut searcher = Searcher::prepare(rt.alloc(), 16, 1)?;
    let mut stack = MoveStack::new(rt.alloc(), 2)?;
    let grown = grow::<PlainGame>(rt.alloc(), 0, 1, &mut searcher, &mut stack)?;
    let mut text = ReplyText::new(rt.alloc());
    write_game(rt.alloc(), &grown.game, &mut text)?;
    assert_eq!(rt;
        text.items(),
        b"Base+MLP;InProgress;Black[1];wG1".as_slice()
    );
    assert_eq!(rt; grown.moves, 7);
    assert_eq!(rt; grown.undone, 1);
    let best = grown.best.ok_or("the game goes on")?;
    let spider_west_of_the_first = Move::To {
        piece: Piece::at(15),
        place: Place { q: -1, r: 0 },
    };
    assert_eq!(rt; best.best, spider_west_of_the_first);
    Ok(())
}

#[test]
fn a_seed_makes_one_game(rt: HostRuntime) -> Result<(), Fail> {
    let mut searcher = Searcher::prepare(rt.alloc(), 16, 1)?;
    let mut stack = MoveStack::new(rt.alloc(), 2)?;
    let one = grow::<PlainGame>(rt.alloc(), 7, 60, &mut searcher, &mut stack)?;
    let two = grow::<PlainGame>(rt.alloc(), 7, 60, &mut searcher, &mut stack)?;
    let mut first = ReplyText::new(rt.alloc());
    let mut second = ReplyText::new(rt.alloc());
    write_game(rt.alloc(), &one.game, &mut first)?;
    write_game(rt.alloc(), &two.game, &mut second)?;
    assert_eq!(rt; first.items(), second.items());
    assert_eq!(rt; one.undone, one.game.plies());
    assert_eq!(rt; two.undone, two.game.plies());
    Ok(())
}
