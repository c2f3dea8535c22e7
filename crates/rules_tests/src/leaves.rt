//! Tests of `leaf_worth`: the worth found before a put, compared with the worth after it.

ghost use Rattle.std.specs.Prelude.{◌≡◌, false, IsTrue};
ghost use Rattle.hive_model.specs.Legal.{is_surrounded};
ghost use Rattle.hive_model.specs.Places.{IsWithin};

use crate::boards::{again, board_of};
use hive_eval::evaluate;
use hive_model::{Board, Colour, Kind, Piece, Place, is_walled};
use leaf_worth::{has_two_places, least_after_put, worth_after_put};
use one_hive::{KnownCuts, Separating, is_one};
use stack_board::PlainBoard;
use std::alloc::{AllocError, Global};
use std::process::Abort;
use std::test::Fail;

/// Whether the side's queen is certainly not surrounded.
fn is_open<B: Board>(board: &B, side: Colour) -> bool
    ensures { IsTrue result → is_surrounded (B.stacks board.now) side ≡ false }
{
    match board.spot(side.queen()) {
        Some(spot) => !is_walled(board, spot.place),
        None => true,
    }
}

/// What the board is worth to the side if this piece rests.
fn worth(board: &PlainBoard, side: Colour, rest: Option<Piece>) -> i32 {
    let separating = Separating::found(board);
    evaluate(&KnownCuts::new(board, &separating), side, rest)
}

/// The worth of the put found without a play, if any.
fn told(board: &PlainBoard, piece: Piece, place: Place, side: Colour) -> Option<i32>
    requires { IsWithin 9000 place }
{
    if board.spot(piece).is_some()
        || !is_open(board, Colour::White)
        || !is_open(board, Colour::Black)
    {
        return None;
    }
    let separating = Separating::found(board);
    let known = KnownCuts::new(board, &separating);
    let base = evaluate(&known, side, None);
    let two = has_two_places(&known);
    let one = is_one(&known);
    worth_after_put(&known, base, piece, place, side, two, one)
}

/// The bound of the put, if there is one.
fn bound(board: &PlainBoard, piece: Piece, place: Place, side: Colour) -> Option<i32>
    requires { IsWithin 9000 place }
{
    if board.spot(piece).is_some()
        || !is_open(board, Colour::White)
        || !is_open(board, Colour::Black)
    {
        return None;
    }
    let separating = Separating::found(board);
    let known = KnownCuts::new(board, &separating);
    let base = evaluate(&known, side, None);
    least_after_put(&known, base, piece, place, side)
}

/// The puts of all pieces on the places near the origin: for how many the worth is found without a
/// play, and for how many it is not. Each worth that is found is what the board is worth after the
/// put.
fn told_and_not(
    rt: &impl Abort,
    alloc: Global,
    pieces: &[(Colour, Kind, u8, i32, i32)],
) -> Result<(u32, u32), AllocError> {
    let board = board_of(alloc, pieces)?;
    let mut has = 0u32;
    let mut not = 0u32;
    for x in 0..28u8 {
        let piece = Piece::at(x);
        if board.spot(piece).is_some() {
            continue;
        }
        for q in -4..5i32 {
            for r in -4..5i32 {
                for side in [Colour::White, Colour::Black] {
                    let place = Place { q, r };
                    if q < -9 || 9 < q || r < -9 || 9 < r {
                        continue;
                    }
                    match told(&board, piece, place, side) {
                        Some(worth_told) => {
                            let mut after = board_of(alloc, pieces)?;
                            if after.spot(piece).is_none() {
                                after.put(piece, place);
                            }
                            assert_eq!(rt; worth_told, worth(&after, side, Some(piece)));
                            has = has.saturating_add(1);
                        }
                        None => not = not.saturating_add(1),
                    }
                }
            }
        }
    }
    Ok((has, not))
}

/// A line: each put beside one end has only one neighbour. Black's queen is in hand.
#[test]
fn a_line(rt: HostRuntime) -> Result<(), Fail> {
    let pieces = [
        (Colour::White, Kind::Spider, 1, -1, 0),
        (Colour::White, Kind::Queen, 0, 0, 0),
        (Colour::Black, Kind::Ant, 1, 1, 0),
    ];
    assert_eq!(rt; told_and_not(&rt, rt.alloc(), &pieces)?, (650, 3400));
    Ok(())
}

/// Two queens beside each other, an ant, and a beetle on a spider.
#[test]
fn a_stack_and_two_queens(rt: HostRuntime) -> Result<(), Fail> {
    let pieces = [
        (Colour::White, Kind::Queen, 0, 0, 0),
        (Colour::White, Kind::Ant, 1, -1, 0),
        (Colour::Black, Kind::Queen, 0, 1, 0),
        (Colour::Black, Kind::Spider, 1, 1, 1),
        (Colour::Black, Kind::Beetle, 1, 1, 1),
    ];
    assert_eq!(rt; told_and_not(&rt, rt.alloc(), &pieces)?, (736, 2990));
    Ok(())
}

/// White's queen has five neighbours and a gap. No put into the gap is valued without a play. A
/// tail of Black's queen and a stack hangs on two of the five, none of which is on a cut place.
#[test]
fn a_ring_with_a_gap_and_a_tail(rt: HostRuntime) -> Result<(), Fail> {
    let pieces = [
        (Colour::White, Kind::Queen, 0, 0, 0),
        (Colour::White, Kind::Ant, 1, 1, 0),
        (Colour::Black, Kind::Ant, 1, 1, -1),
        (Colour::White, Kind::Ant, 2, 0, -1),
        (Colour::Black, Kind::Ant, 2, -1, 0),
        (Colour::White, Kind::Grasshopper, 1, -1, 1),
        (Colour::Black, Kind::Queen, 0, -2, 1),
        (Colour::Black, Kind::Beetle, 1, -3, 2),
        (Colour::White, Kind::Beetle, 1, -3, 2),
    ];
    assert_eq!(rt; told_and_not(&rt, rt.alloc(), &pieces)?, (836, 2242));
    Ok(())
}

/// A single piece. A put beside it is not valued without a play, since no other place is then
/// occupied; a put on top of it is.
#[test]
fn one_piece(rt: HostRuntime) -> Result<(), Fail> {
    let pieces = [(Colour::White, Kind::Grasshopper, 1, 0, 0)];
    assert_eq!(rt; told_and_not(&rt, rt.alloc(), &pieces)?, (54, 4320));
    Ok(())
}

/// A bent line of three. A piece put into the bend joins its ends. White's ant in the middle, which
/// was on a cut place, then counts 10, and the spider 4. Black's grasshopper counts 6, and the
/// beetle that was put rests.
#[test]
fn a_put_into_a_bend(rt: HostRuntime) -> Result<(), Fail> {
    let pieces = [
        (Colour::White, Kind::Spider, 1, -1, 1),
        (Colour::White, Kind::Ant, 1, 0, 0),
        (Colour::Black, Kind::Grasshopper, 1, 1, 0),
    ];
    let board = board_of(rt.alloc(), &pieces)?;
    let bend = Place { q: 0, r: 1 };
    if let Some(beetle) = Piece::new(Colour::Black, Kind::Beetle, 1) {
        assert_eq!(rt; told(&board, beetle, bend, Colour::White), Some(8));
        assert_eq!(rt; told(&board, beetle, bend, Colour::Black), Some(-8));
    }
    assert_eq!(rt; told_and_not(&rt, rt.alloc(), &pieces)?, (650, 3400));
    Ok(())
}

/// Three pieces around one, no two of them neighbours. A put between two of them leaves the middle
/// a cut place, and is not valued without a play.
#[test]
fn a_middle_that_stays_a_cut_place(rt: HostRuntime) -> Result<(), Fail> {
    let pieces = [
        (Colour::White, Kind::Ant, 1, 0, 0),
        (Colour::White, Kind::Spider, 1, -1, 1),
        (Colour::Black, Kind::Grasshopper, 1, 1, 0),
        (Colour::Black, Kind::Spider, 1, 0, -1),
    ];
    let board = board_of(rt.alloc(), &pieces)?;
    if let Some(beetle) = Piece::new(Colour::Black, Kind::Beetle, 1) {
        assert_eq!(rt;
            told(&board, beetle, Place { q: 0, r: 1 }, Colour::White),
            None
        );
    }
    assert_eq!(rt; told_and_not(&rt, rt.alloc(), &pieces)?, (624, 3264));
    Ok(())
}

/// Five pieces of a ring, and the place that closes it. Its two neighbours are the ends, which are
/// not neighbours of each other, so every held piece counts. White's grasshopper (6) and Black's
/// ant (10) are free. Black's beetle (8) and White's spider (4) and ant (10) are held. The queens
/// are in hand.
#[test]
fn a_bound_where_a_ring_closes(rt: HostRuntime) -> Result<(), Fail> {
    let hopper = Piece::new(Colour::Black, Kind::Grasshopper, 1).ok_or("bG1")?;
    let pieces = [
        (Colour::White, Kind::Grasshopper, 1, 1, 0),
        (Colour::Black, Kind::Beetle, 1, 2, -1),
        (Colour::White, Kind::Spider, 1, 2, -2),
        (Colour::White, Kind::Ant, 1, 1, -2),
        (Colour::Black, Kind::Ant, 1, 0, -1),
    ];
    let board = board_of(rt.alloc(), &pieces)?;
    let gap = Place { q: 0, r: 0 };
    assert_eq!(rt; bound(&board, hopper, gap, Colour::White), Some(6 - 10 - 8));
    assert_eq!(rt;
        bound(&board, hopper, gap, Colour::Black),
        Some(10 - 6 - 4 - 10)
    );
    Ok(())
}

/// A line of five with a bend. The place in the bend is beside Black's queen, Black's beetle and
/// White's spider, which form one arc. So of the held pieces the beetle (8) and the spider (4) may
/// become free, and Black's ant may not. Each queen is free and has one neighbour, and Black's gets
/// one more.
#[test]
fn a_bound_beside_one_arc(rt: HostRuntime) -> Result<(), Fail> {
    let hopper = Piece::new(Colour::Black, Kind::Grasshopper, 1).ok_or("bG1")?;
    let pieces = [
        (Colour::Black, Kind::Queen, 0, -1, 1),
        (Colour::Black, Kind::Beetle, 1, 0, 0),
        (Colour::White, Kind::Spider, 1, 1, 0),
        (Colour::Black, Kind::Ant, 1, 2, 0),
        (Colour::White, Kind::Queen, 0, 3, 0),
    ];
    let board = board_of(rt.alloc(), &pieces)?;
    let bend = Place { q: 0, r: 1 };
    assert_eq!(rt; bound(&board, hopper, bend, Colour::White), Some(40 - 8));
    assert_eq!(rt; bound(&board, hopper, bend, Colour::Black), Some(-40 - 4));
    Ok(())
}

/// White's queen (4) has five neighbours of Black's, which weigh 30, and a gap. Nothing is held.
/// There is no bound for an occupied place, beside only one neighbour, and in the gap. There is one
/// beside two neighbours. If Black's queen is put there, she has these two.
#[test]
fn no_bound(rt: HostRuntime) -> Result<(), Fail> {
    let ant = Piece::new(Colour::Black, Kind::Ant, 1).ok_or("bA1")?;
    let queen = Piece::new(Colour::Black, Kind::Queen, 0).ok_or("bQ")?;
    let pieces = [
        (Colour::White, Kind::Queen, 0, 0, 0),
        (Colour::Black, Kind::Spider, 1, 1, 0),
        (Colour::Black, Kind::Spider, 2, 1, -1),
        (Colour::Black, Kind::Beetle, 1, 0, -1),
        (Colour::Black, Kind::Beetle, 2, -1, 0),
        (Colour::Black, Kind::Grasshopper, 1, -1, 1),
    ];
    let board = board_of(rt.alloc(), &pieces)?;
    for (q, r) in [(1, 0), (1, 1), (0, 1)] {
        if -9 <= q && q <= 9 && -9 <= r && r <= 9 {
            assert_eq!(rt; bound(&board, ant, Place { q, r }, Colour::White), None);
        }
    }
    let two = Place { q: 2, r: -1 };
    assert_eq!(rt; bound(&board, ant, two, Colour::White), Some(-200 + 4 - 30));
    assert_eq!(rt;
        bound(&board, queen, two, Colour::White),
        Some(80 - 200 + 4 - 30)
    );
    Ok(())
}
