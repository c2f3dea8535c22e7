//! Whether a move is legal.

ghost use Rattle.std.specs.Prelude.{◌≡◌, ◌↔◌, [], IsTrue};
ghost use Rattle.hive_model.specs.declared.places.Place.{Place};
ghost use Rattle.hive_model.specs.Lists.{IsOn};
ghost use Rattle.hive_model.specs.PlaceLists.{AreAll};
ghost use Rattle.hive_model.specs.Boards.{IsBoard};
ghost use Rattle.hive_model.specs.Places.{IsOnTheMap};
ghost use Rattle.hive_model.specs.Legal.{LegalPair, is_over, moves};
ghost use Rattle.legal_moves.specs.Going.{position_of};
ghost use Rattle.legal_moves.specs.Listing.{HasPair};

use crate::throws::{find_throwers, is_moved, moved_places};
use crate::turns::Turn;
use hand_rules::{may_bring, may_place, placement_places};
use hive_model::{Board, Cuts, Move, Piece, Place, PlaceList};

/// Lists where the piece may go in this turn, from the hand, by its own way or thrown.
fn piece_places<B: Cuts>(board: &B, turn: &Turn, piece: Piece, out: &mut PlaceList)
    requires board { IsBoard (B.stacks board.now) }
    requires empty { out.old.items ≡ [] }
    ensures { AreAll (LegalPair (position_of (B.stacks board.now) turn.now) piece) out.new.items }
{
    if may_bring(turn.game_type, board, turn.side, turn.number, piece) {
        placement_places(board, turn.side, out);
    } else {
        let throwers = find_throwers(board, turn);
        moved_places(board, turn, &throwers, piece, out);
    }
}

/// Whether the place is no further out than places beside the hive can be.
fn is_within(place: Place) -> bool
    ensures { IsTrue result ↔ IsOnTheMap place }
{
    if place.q < -9500 {
        return false;
    }
    if place.q > 9500 {
        return false;
    }
    if place.r < -9500 {
        return false;
    }
    if place.r > 9500 {
        return false;
    }
    true
}

/// Whether the piece may go to the place. That piece and that place alone are looked at: where the
/// piece is in hand no list is made.
fn is_pair<B: Cuts>(board: &B, turn: &Turn, piece: Piece, place: Place) -> bool
    requires { IsBoard (B.stacks board.now) }
    ensures { IsTrue result ↔ LegalPair (position_of (B.stacks board.now) turn.now) piece place }
{
    if !may_bring(turn.game_type, board, turn.side, turn.number, piece) {
        return is_moved(board, turn, piece, place);
    }
    if !is_within(place) {
        return false;
    }
    may_place(board, turn.side, place)
}

/// Whether the piece may go anywhere.
fn goes_somewhere<B: Cuts>(board: &B, turn: &Turn, piece: Piece) -> bool
    requires { IsBoard (B.stacks board.now) }
    ensures { IsTrue result ↔ ((q : Place) × LegalPair (position_of (B.stacks board.now) turn.now)
        piece q) }
{
    let mut places = PlaceList::new();
    piece_places(board, turn, piece, &mut places);
    places.len() > 0
}

/// Whether any piece may go anywhere.
fn has_pair<B: Cuts>(board: &B, turn: &Turn) -> bool
    requires { IsBoard (B.stacks board.now) }
    ensures { IsTrue result ↔ HasPair (position_of (B.stacks board.now) turn.now) }
{
    for x in 0..28u8 {
        if goes_somewhere(board, turn, Piece::at(x)) {
            return true;
        }
    }
    false
}

/// Whether the move is legal in this turn. No list of moves is made: one piece and its places are
/// looked at, or for a pass one piece after another until one can move. `over` says whether the
/// game is over; no move is legal then.
pub fn is_legal_move<B: Cuts>(board: &B, turn: &Turn, over: bool, m: Move) -> bool
    requires { over ≡ is_over (position_of (B.stacks board.now) turn.now) }
    ensures { IsTrue result ↔ IsOn (moves (position_of (B.stacks board.now) turn.now)) m }
{
    if over {
        return false;
    }
    board.lemma_board();
    match m {
        Move::Pass => !has_pair(board, turn),
        Move::To { piece, place } => is_pair(board, turn, piece, place),
    }
}
