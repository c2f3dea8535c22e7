//! Tests of `win_bounds`: games in which a queen is about to be surrounded, or far from it.

use hive_model::{Game, GameType, Kind, Move, Piece, Place};
use plain_game::PlainGame;
use std::alloc::{AllocError, Global};
use std::test::Fail;
use win_bounds::{is_far_from_loss, is_far_from_win};

/// A piece of the side to move by its kind and number, and the place to which it goes.
type Put = (Kind, u8, i32, i32);

/// Whether the side to move is far from a win, and from a loss; `None` if a move was not legal.
type Far = Option<(bool, bool)>;

const ALL: GameType = GameType {
    mosquito: true,
    ladybug: true,
    pillbug: true,
};

/// Plays the piece to the place, if that is legal.
fn plays(game: &mut PlainGame, put: Put) -> Result<bool, AllocError> {
    let (kind, number, q, r) = put;
    let Some(piece) = Piece::new(game.side(), kind, number) else {
        return Ok(false);
    };
    if game.plies() > 100 {
        return Ok(false);
    }
    game.reserve(1)?;
    let place = Place { q, r };
    let m = Move::To { piece, place };
    if !game.is_legal(m.again()) {
        return Ok(false);
    }
    game.play(m);
    Ok(true)
}

/// Plays these pieces to their places in turn, and answers whether each move was legal.
fn plays_all(game: &mut PlainGame, puts: &[Put]) -> Result<bool, AllocError> {
    for (kind, number, q, r) in puts {
        if !plays(game, (*kind, *number, *q, *r))? {
            return Ok(false);
        }
    }
    Ok(true)
}

/// The answers for the game in which the three lists of moves were played one after another.
fn far_after(alloc: Global, first: &[Put], then: &[Put], more: &[Put]) -> Result<Far, AllocError> {
    let mut game = PlainGame::opening(alloc, ALL)?;
    if !plays_all(&mut game, first)? || !plays_all(&mut game, then)? {
        return Ok(None);
    }
    if !plays_all(&mut game, more)? {
        return Ok(None);
    }
    Ok(Some((is_far_from_win(&game), is_far_from_loss(&game))))
}

#[test]
fn queens_in_hand_are_far_from_a_win_alone(rt: HostRuntime) -> Result<(), Fail> {
    let pillbugs = [
        (Kind::Pillbug, 0, 0, 0),
        (Kind::Pillbug, 0, 1, 0),
        (Kind::Spider, 1, -1, 0),
    ];
    let [white, black, spider] = pillbugs;
    let none = far_after(rt.alloc(), &[], &[], &[])?;
    assert_eq!(rt; none, Some((true, false)));
    let one = far_after(rt.alloc(), &[white], &[], &[])?;
    assert_eq!(rt; one, Some((true, false)));
    let two = far_after(rt.alloc(), &[white], &[black], &[])?;
    assert_eq!(rt; two, Some((true, false)));
    let three = far_after(rt.alloc(), &[white], &[black], &[spider])?;
    assert_eq!(rt; three, Some((true, false)));
    Ok(())
}

/// Black's queen at (2, 0) gets four neighbours, which are ants and a spider of both sides. Black's
/// other pieces are in a line behind her. White's queen has one neighbour.
const FOUR_ROUND: [Put; 12] = [
    (Kind::Spider, 1, 0, 0),
    (Kind::Spider, 1, 1, 0),
    (Kind::Queen, 0, -1, 0),
    (Kind::Queen, 0, 2, 0),
    (Kind::Ant, 1, -1, 1),
    (Kind::Ant, 1, 3, 0),
    (Kind::Ant, 1, 1, 1),
    (Kind::Grasshopper, 1, 4, 0),
    (Kind::Ant, 2, 0, -1),
    (Kind::Grasshopper, 2, 5, 0),
    (Kind::Ant, 2, 2, -1),
    (Kind::Grasshopper, 3, 6, 0),
];

#[test]
fn four_neighbours_are_few_and_five_are_not(rt: HostRuntime) -> Result<(), Fail> {
    let four = far_after(rt.alloc(), &FOUR_ROUND, &[], &[])?;
    assert_eq!(rt; four, Some((true, true)));
    for (q, r, is_far) in [(3, -1, false), (1, 2, true)] {
        let moved = [
            (Kind::Ant, 3, 0, -1),
            (Kind::Spider, 2, 7, 0),
            (Kind::Ant, 3, q, r),
        ];
        let black = far_after(rt.alloc(), &FOUR_ROUND, &moved, &[])?;
        assert_eq!(rt; black, Some((true, is_far)));
        let white = far_after(rt.alloc(), &FOUR_ROUND, &moved, &[(Kind::Ant, 2, 8, 0)])?;
        assert_eq!(rt; white, Some((is_far, true)));
    }
    Ok(())
}

#[test]
fn beetles_above_are_no_neighbours_more(rt: HostRuntime) -> Result<(), Fail> {
    let climb = [
        (Kind::Beetle, 1, -1, 1),
        (Kind::Spider, 2, 7, 0),
        (Kind::Beetle, 1, 0, 1),
        (Kind::Ant, 2, 8, 0),
        (Kind::Beetle, 1, 1, 1),
        (Kind::Ant, 3, 9, 0),
        (Kind::Beetle, 1, 2, 0),
        (Kind::Beetle, 1, 10, 0),
    ];
    for played in 5..9usize {
        // on a neighbour of black's queen, and then on top of her
        let told = far_after(rt.alloc(), &FOUR_ROUND, &climb[..played], &[])?;
        assert_eq!(rt; told, Some((true, true)), "{played} plies behind");
    }
    Ok(())
}

/// These moves follow a first piece of white's at (0, 0). Both queens end beside it, black's at (0,
/// -1). The empty place (0, 1) is beside that piece too. Of its six neighbours only (-1, 1) is left
/// empty.
const NEAR_RING: [Put; 11] = [
    (Kind::Spider, 1, -1, 0),
    (Kind::Queen, 0, 1, 0),
    (Kind::Queen, 0, -1, -1),
    (Kind::Ant, 1, 1, 1),
    (Kind::Queen, 0, 0, -1),
    (Kind::Ant, 2, 0, 2),
    (Kind::Beetle, 1, -2, 0),
    (Kind::Spider, 1, -1, 2),
    (Kind::Grasshopper, 1, -3, 0),
    (Kind::Ant, 3, -2, 2),
    (Kind::Grasshopper, 2, -4, 0),
];

/// White's ant closes the ring around the hole, and black makes a move elsewhere.
const CLOSED: [Put; 2] = [(Kind::Ant, 3, -1, 1), (Kind::Grasshopper, 3, -5, 0)];

/// The answers with this piece of white's beside both queens and the open ring, after the two lists
/// of moves.
fn far_beside(alloc: Global, kind: Kind, then: &[Put], more: &[Put]) -> Result<Far, AllocError> {
    let mut puts = Vec::from_slice(alloc, &[(kind, 0, 0, 0)])?;
    puts.extend_from_slice(&NEAR_RING)?;
    far_after(alloc, puts.as_slice(), then, more)
}

#[test]
fn own_pillbugs_and_mosquitoes_throw_queens_into_a_hole(rt: HostRuntime) -> Result<(), Fail> {
    for (kind, is_far) in [
        (Kind::Pillbug, false),
        (Kind::Mosquito, false),
        (Kind::Ladybug, true),
    ] {
        let open = far_beside(rt.alloc(), kind, &[], &[])?;
        assert_eq!(rt; open, Some((true, true)), "{kind:?}");
        let closed = far_beside(rt.alloc(), kind, &CLOSED, &[])?;
        assert_eq!(rt; closed, Some((is_far, is_far)), "{kind:?}");
    }
    let filled = [
        (Kind::Grasshopper, 1, 0, 3),
        (Kind::Ant, 1, -6, 0),
        (Kind::Grasshopper, 1, 0, 1),
        (Kind::Ant, 2, -7, 0),
    ];
    let told = far_beside(rt.alloc(), Kind::Pillbug, &CLOSED, &filled)?;
    assert_eq!(rt; told, Some((true, true)));
    let covered = [
        (Kind::Grasshopper, 1, 2, 0),
        (Kind::Beetle, 2, -1, -1),
        (Kind::Grasshopper, 2, 3, 0),
        (Kind::Beetle, 2, -1, 0),
        (Kind::Grasshopper, 3, 4, 0),
        (Kind::Beetle, 2, 0, 0),
    ];
    let told = far_beside(rt.alloc(), Kind::Pillbug, &CLOSED, &covered)?;
    assert_eq!(rt; told, Some((true, true)));
    Ok(())
}

/// These moves follow white's spider at (0, 0) and a piece of black's at (1, 0). Black's queen is
/// beside that piece. Black's ant closes the ring around the hole (1, 1), which is beside it too.
const BLACK_RING: [Put; 14] = [
    (Kind::Queen, 0, -1, 0),
    (Kind::Queen, 0, 2, -1),
    (Kind::Ant, 1, -2, 0),
    (Kind::Ant, 1, 2, 0),
    (Kind::Ant, 2, -3, 0),
    (Kind::Spider, 1, 2, 1),
    (Kind::Ant, 3, -4, 0),
    (Kind::Spider, 2, 1, 2),
    (Kind::Grasshopper, 1, -5, 0),
    (Kind::Ant, 2, 0, 2),
    (Kind::Grasshopper, 2, -6, 0),
    (Kind::Ant, 3, -1, 2),
    (Kind::Grasshopper, 3, -7, 0),
    (Kind::Ant, 3, 0, 1),
];

#[test]
fn pieces_of_the_other_side_throw_no_queen(rt: HostRuntime) -> Result<(), Fail> {
    for (kind, is_far) in [
        (Kind::Pillbug, false),
        (Kind::Mosquito, false),
        (Kind::Ladybug, true),
    ] {
        let first = [(Kind::Spider, 1, 0, 0), (kind, 0, 1, 0)];
        let white = far_after(rt.alloc(), &first, &BLACK_RING, &[])?;
        assert_eq!(rt; white, Some((true, true)), "{kind:?}");
        let black = far_after(rt.alloc(), &first, &BLACK_RING, &[(Kind::Spider, 2, -8, 0)])?;
        assert_eq!(rt; black, Some((true, is_far)), "{kind:?}");
    }
    Ok(())
}
