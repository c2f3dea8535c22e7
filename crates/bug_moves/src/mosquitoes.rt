//! Where a mosquito goes, over any board.
//!
//! The board is always the one from which the mosquito was lifted.

ghost use Rattle.std.specs.Prelude.{◌≡◌, ◌≢◌, [], Some};
ghost use Rattle.std.specs.List.{list_any};
ghost use Rattle.hive_model.specs.declared.pieces.Kind.{Kind};
ghost use Rattle.hive_model.specs.declared.pieces.Kind.TheVariants.{Mosquito};
ghost use Rattle.hive_model.specs.PlaceLists.{AreAll};
ghost use Rattle.hive_model.specs.Places.{IsOnTheMap};
ghost use Rattle.hive_model.specs.Reach.{Reach, Copies, CopiesOne};
ghost use Rattle.bug_moves.specs.Adding.{IsAround, Gains};
ghost use Rattle.bug_moves.specs.Copied.{shows, tops_round, CopiesKind};

use crate::found::add_new;
use crate::reach;
use hive_model::{Board, Dir, Kind, Piece, Place, PlaceList, place_at};

/// The kinds that a mosquito copies, which are all others.
const COPIED: [Kind; 7] = [
    Kind::Queen,
    Kind::Spider,
    Kind::Beetle,
    Kind::Grasshopper,
    Kind::Ant,
    Kind::Ladybug,
    Kind::Pillbug,
];

fn shows(top: Option<Piece>, kind: Kind) -> bool
    ensures { result ≡ shows kind top }
{
    match top {
        Some(piece) => piece.kind().is(kind),
        None => false,
    }
}

/// The top pieces of the six neighbours of a place, in the order of the directions.
#[tactic(auto, using(hive_model::proofs::PlaceLemmas::wider))]
fn tops_round<B: Board>(board: &B, from: Place) -> [Option<Piece>; 6]
    requires { IsOnTheMap from }
    ensures { result ≡ tops_round (B.stacks board.now) from }
{
    [
        board.top(from.step(Dir::E)),
        board.top(from.step(Dir::NE)),
        board.top(from.step(Dir::NW)),
        board.top(from.step(Dir::W)),
        board.top(from.step(Dir::SW)),
        board.top(from.step(Dir::SE)),
    ]
}

/// Whether one of the top pieces is of this kind.
fn any_shows(tops: &[Option<Piece>], kind: Kind) -> bool
    ensures { result ≡ list_any (shows kind) tops.now }
{
    tops.iter().any(|top| shows(*top, kind))
}

/// Adds where a bug of this kind goes.
fn add_reach<B: Board>(board: &B, from: Place, kind: Kind, out: &mut PlaceList)
    requires kind { kind ≢ Mosquito }
    requires within { IsOnTheMap from }
    requires list { IsAround (B.stacks board.now) out.old.items }
    ensures { Gains (B.stacks board.now) (Reach kind (B.stacks board.now) from) out.old.items
        out.new.items }
{
    let mut reached = PlaceList::new();
    reach(kind, board, from, &mut reached);
    let many = reached.len();
    for index in 0..many {
        let place = place_at(&reached, index);
        add_new(out, place);
    }
}

/// Adds where a bug of this kind goes, if one is a neighbour. The neighbours' top pieces are given.
fn copy_kind<B: Board>(
    board: &B,
    from: Place,
    tops: &[Option<Piece>],
    kind: Kind,
    out: &mut PlaceList,
)
    requires tops { tops.now ≡ tops_round (B.stacks board.now) from }
    requires kind { kind ≢ Mosquito }
    requires within { IsOnTheMap from }
    requires list { IsAround (B.stacks board.now) out.old.items }
    ensures { Gains (B.stacks board.now) (CopiesKind (B.stacks board.now) from kind) out.old.items
        out.new.items }
{
    if any_shows(tops, kind) {
        add_reach(board, from, kind, out);
    }
}

/// Adds where the neighbouring top pieces go, but those that are mosquitoes, each kind once.
fn copy_neighbours<B: Board>(board: &B, from: Place, out: &mut PlaceList)
    requires within { IsOnTheMap from }
    requires list { IsAround (B.stacks board.now) out.old.items }
    ensures { Gains (B.stacks board.now) (CopiesOne (B.stacks board.now) from) out.old.items
        out.new.items }
{
    let tops = tops_round(board, from);
    for kind in COPIED {
        copy_kind(board, from, &tops, kind, out);
    }
}

/// The places that a mosquito reaches from a place, by q and then by r.
///
/// On a stack it moves as a beetle. On the ground it moves as any piece on top of a neighbouring
/// place does, but another mosquito gives it nothing.
pub fn mosquito_reach<B: Board>(board: &B, from: Place, out: &mut PlaceList)
    requires empty { out.old.items ≡ [] }
    requires within { IsOnTheMap from }
    ensures { AreAll (Copies (B.stacks board.now) from) out.new.items }
{
    board.lemma_board();
    let height = board.height(from);
    if height > 0 {
        reach(Kind::Beetle, board, from, out);
    } else {
        copy_neighbours(board, from, out);
    }
}
