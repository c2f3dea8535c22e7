//! Where a piece of the side to move goes by its kind's rule.

ghost use Rattle.std.specs.Prelude.{◌≡◌, ◌↔◌, [], IsTrue};
ghost use Rattle.hive_model.specs.PlaceLists.{AreAll};
ghost use Rattle.hive_model.specs.Boards.{IsBoard, is_on_top};
ghost use Rattle.hive_model.specs.Evaluation.{IsFreePiece};
ghost use Rattle.hive_model.specs.Legal.{Walk};
ghost use Rattle.hive_model.specs.Places.{IsOnTheMap};
ghost use Rattle.hive_model.specs.Reach.{Copies};
ghost use Rattle.bug_moves.specs.Counts.{AreMany};
ghost use Rattle.legal_moves.specs.Going.{Goes, position_of};

use crate::turns::Turn;
use bug_moves::{count_reach, mosquito_reach, reach, reaches};
use hive_model::{Board, Cuts, Kind, Lifted, Piece, Place, PlaceList, has_place};

/// Whether the piece may leave its place: it is on top, it does not rest, and its place is no cut
/// place.
fn may_walk<B: Cuts>(board: &B, piece: Piece, rest: &Option<Piece>) -> bool
    requires { IsBoard (B.stacks board.now) }
    ensures { IsTrue result ↔ IsFreePiece (B.stacks board.now) rest.now piece }
{
    let Some(spot) = board.spot(piece) else {
        return false;
    };
    let height = board.height(spot.place);
    if piece.rests(rest) || height - spot.level != 1 {
        return false;
    }
    !board.is_cut(spot.place)
}

/// Lists where the piece, which is on top, moves to by its kind's rule.
fn go<B: Board>(board: &B, piece: Piece, out: &mut PlaceList)
    requires board { IsBoard (B.stacks board.now) }
    requires top { IsTrue (is_on_top (B.stacks board.now) piece) }
    requires empty { out.old.items ≡ [] }
    ensures { AreAll (Goes (B.stacks board.now) piece) out.new.items }
{
    let Some(spot) = board.spot(piece) else {
        return;
    };
    let lifted = Lifted::new(board, piece);
    match piece.kind() {
        Kind::Mosquito => mosquito_reach(&lifted, spot.place, out),
        kind => reach(kind, &lifted, spot.place, out),
    }
}

/// Lists where the piece moves to by its kind's rule, if it is one of the side to move that may
/// leave its place.
pub fn walks<B: Cuts>(board: &B, turn: &Turn, piece: Piece, out: &mut PlaceList)
    requires board { IsBoard (B.stacks board.now) }
    requires empty { out.old.items ≡ [] }
    ensures { AreAll (Walk (position_of (B.stacks board.now) turn.now) piece) out.new.items }
{
    if piece.colour().is(turn.side) && may_walk(board, piece, &turn.rest) {
        go(board, piece, out);
    }
}

/// To how many places the piece, which is on top, moves by its kind's rule. `places` is a list to
/// write on.
fn count_goes<B: Board>(board: &B, piece: Piece, places: &mut PlaceList) -> usize
    requires board { IsBoard (B.stacks board.now) }
    requires top { IsTrue (is_on_top (B.stacks board.now) piece) }
    ensures { AreMany (Goes (B.stacks board.now) piece) result }
{
    let Some(spot) = board.spot(piece) else {
        return 0;
    };
    let lifted = Lifted::new(board, piece);
    match piece.kind() {
        Kind::Mosquito => {
            places.clear();
            mosquito_reach(&lifted, spot.place, places);
            places.len()
        }
        kind => count_reach(kind, &lifted, spot.place, places),
    }
}

/// To how many places the piece moves by its kind's rule, if it is one of the side to move that may
/// leave its place: as many as `walks` lists. `places` is a list to write on.
pub fn count_walks<B: Cuts>(board: &B, turn: &Turn, piece: Piece, places: &mut PlaceList) -> usize
    requires { IsBoard (B.stacks board.now) }
    ensures { AreMany (Walk (position_of (B.stacks board.now) turn.now) piece) result }
{
    if !piece.colour().is(turn.side) {
        return 0;
    }
    if !may_walk(board, piece, &turn.rest) {
        return 0;
    }
    count_goes(board, piece, places)
}

/// Whether a mosquito that was lifted from the one place goes to the other. The list of where it
/// goes is a function's own, so that no call that makes none pays for it.
#[inline(never)]
fn copies_to<B: Board>(board: &B, from: Place, to: Place) -> bool
    requires { IsOnTheMap from }
    ensures { IsTrue result ↔ Copies (B.stacks board.now) from to }
{
    let mut places = PlaceList::new();
    mosquito_reach(board, from, &mut places);
    has_place(places.as_slice(), to)
}

/// Whether the piece, which is on top, moves to the place by its kind's rule.
fn goes_to<B: Board>(board: &B, piece: Piece, place: Place) -> bool
    requires board { IsBoard (B.stacks board.now) }
    requires top { IsTrue (is_on_top (B.stacks board.now) piece) }
    ensures { IsTrue result ↔ Goes (B.stacks board.now) piece place }
{
    let Some(spot) = board.spot(piece) else {
        return false;
    };
    let lifted = Lifted::new(board, piece);
    match piece.kind() {
        Kind::Mosquito => copies_to(&lifted, spot.place, place),
        kind => reaches(kind, &lifted, spot.place, place),
    }
}

/// Whether the piece moves to the place by its kind's rule, as one of the side to move that may
/// leave its place.
pub fn is_walk<B: Cuts>(board: &B, turn: &Turn, piece: Piece, place: Place) -> bool
    requires { IsBoard (B.stacks board.now) }
    ensures { IsTrue result ↔ Walk (position_of (B.stacks board.now) turn.now) piece place }
{
    if piece.colour().is(turn.side) && may_walk(board, piece, &turn.rest) {
        return goes_to(board, piece, place);
    }
    false
}
