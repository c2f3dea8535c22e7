//! The lists that everything here is made of: what was put in comes out.

use hive_model::{LineText, Move, MoveList, MoveStack, ReplyText, Timed, TimedList};
use std::test::Fail;

#[test]
fn lists_keep_what_they_are_given(rt: HostRuntime) -> Result<(), Fail> {
    let mut moves = MoveList::new(rt.alloc());
    moves.push(Move::Pass)?;
    assert_eq!(rt; moves.items(), [Move::Pass].as_slice());
    let mut line = LineText::new(rt.alloc());
    line.push(b'a')?;
    assert_eq!(rt; line.items(), b"a".as_slice());
    let mut reply = ReplyText::new(rt.alloc());
    reply.push(b'o')?;
    reply.push_all(b"k\n")?;
    assert_eq!(rt; reply.items(), b"ok\n".as_slice());
    let entry = Timed {
        depth: 1,
        budget: 1000,
        started: 0,
        stopped: 7,
    };
    let mut timed = TimedList::new(rt.alloc());
    timed.push(entry)?;
    assert_eq!(rt; timed.items(), [entry].as_slice());
    Ok(())
}

#[test]
fn levels_of_moves_stand_one_above_the_other(rt: HostRuntime) -> Result<(), Fail> {
    let mut levels = MoveStack::new(rt.alloc(), 2)?;
    levels.begin_level();
    levels.push(Move::Pass);
    levels.begin_level();
    assert_eq!(rt; levels.free_levels(), 0);
    assert_eq!(rt; levels.level_len(1), 0);
    levels.drop_level();
    assert_eq!(rt; levels.levels(), 1);
    assert_eq!(rt; levels.level_len(0), 1);
    assert_eq!(rt; levels.get(0, 0), Move::Pass);
    Ok(())
}
