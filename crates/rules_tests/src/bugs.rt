//! Tests of `bug_moves`: each kind beside two pieces, around them, and in a ring.

ghost use Rattle.std.specs.Prelude.{◌≢◌};
ghost use Rattle.hive_model.specs.declared.pieces.Kind.TheVariants.{Mosquito};
ghost use Rattle.hive_model.specs.Places.{IsOnTheMap};

use bug_moves::reach;
use hive_model::{Kind, Piece, Place, PlaceList};
use stack_board::PlainBoard;
use std::test::Fail;

fn finds(board: &PlainBoard, kind: Kind, from: Place, wanted: &[Place]) -> bool
    requires kind { kind ≢ Mosquito }
    requires within { IsOnTheMap from }
{
    let mut out = PlaceList::new();
    reach(kind, board, from, &mut out);
    out.as_slice() == wanted
}

#[test]
fn beside_two_pieces(rt: HostRuntime) -> Result<(), Fail> {
    let mut board = PlainBoard::new(rt.alloc())?;
    board.put(Piece::at(1), Place { q: 0, r: 0 });
    board.put(Piece::at(15), Place { q: 1, r: 0 });
    let from = Place { q: -1, r: 0 };
    let steps = [Place { q: -1, r: 1 }, Place { q: 0, r: -1 }];
    assert!(rt; finds(&board, Kind::Queen, from, &steps));
    assert!(rt; finds(&board, Kind::Pillbug, from, &steps));
    let creeps = [
        Place { q: -1, r: 1 },
        Place { q: 0, r: -1 },
        Place { q: 0, r: 0 },
    ];
    assert!(rt; finds(&board, Kind::Beetle, from, &creeps));
    assert!(rt; finds(&board, Kind::Grasshopper, from, &[Place { q: 2, r: 0 }]));
    Ok(())
}

#[test]
fn round_two_pieces(rt: HostRuntime) -> Result<(), Fail> {
    let mut board = PlainBoard::new(rt.alloc())?;
    board.put(Piece::at(1), Place { q: 0, r: 0 });
    board.put(Piece::at(15), Place { q: 1, r: 0 });
    let from = Place { q: -1, r: 0 };
    let spiders = [Place { q: 1, r: 1 }, Place { q: 2, r: -1 }];
    assert!(rt; finds(&board, Kind::Spider, from, &spiders));
    let ants = [
        Place { q: -1, r: 1 },
        Place { q: 0, r: -1 },
        Place { q: 0, r: 1 },
        Place { q: 1, r: -1 },
        Place { q: 1, r: 1 },
        Place { q: 2, r: -1 },
        Place { q: 2, r: 0 },
    ];
    assert!(rt; finds(&board, Kind::Ant, from, &ants));
    let ladybugs = [
        Place { q: 0, r: 1 },
        Place { q: 1, r: -1 },
        Place { q: 1, r: 1 },
        Place { q: 2, r: -1 },
        Place { q: 2, r: 0 },
    ];
    assert!(rt; finds(&board, Kind::Ladybug, from, &ladybugs));
    Ok(())
}

#[test]
fn in_and_round_a_ring(rt: HostRuntime) -> Result<(), Fail> {
    let mut board = PlainBoard::new(rt.alloc())?;
    let ring = [
        Place { q: -1, r: 0 },
        Place { q: -1, r: 1 },
        Place { q: 0, r: -1 },
        Place { q: 0, r: 1 },
        Place { q: 1, r: -1 },
        Place { q: 1, r: 0 },
    ];
    board.put(Piece::at(0), ring[0]);
    board.put(Piece::at(1), ring[1]);
    board.put(Piece::at(2), ring[2]);
    board.put(Piece::at(3), ring[3]);
    board.put(Piece::at(14), ring[4]);
    board.put(Piece::at(15), ring[5]);
    let middle = Place { q: 0, r: 0 };
    assert!(rt; finds(&board, Kind::Ant, middle, &[]));
    assert!(rt; finds(&board, Kind::Beetle, middle, &ring));
    let outside = [
        Place { q: -2, r: 0 },
        Place { q: -2, r: 1 },
        Place { q: -2, r: 2 },
        Place { q: -1, r: -1 },
        Place { q: -1, r: 2 },
        Place { q: 0, r: -2 },
        Place { q: 0, r: 2 },
        Place { q: 1, r: -2 },
        Place { q: 1, r: 1 },
        Place { q: 2, r: -2 },
        Place { q: 2, r: -1 },
    ];
    assert!(rt; finds(&board, Kind::Ant, Place { q: 2, r: 0 }, &outside));
    Ok(())
}
