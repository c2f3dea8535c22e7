//! How many legal moves there are.

ghost use Rattle.std.specs.Prelude.{◌≡◌, length};
ghost use Rattle.hive_model.specs.Boards.{IsBoard};
ghost use Rattle.hive_model.specs.Placement.{MayPlace};
ghost use Rattle.hive_model.specs.Legal.{is_over, moves, LegalPair};
ghost use Rattle.hand_rules.specs.Bringing.{CanBring};
ghost use Rattle.bug_moves.specs.Counts.{AreMany};
ghost use Rattle.legal_moves.specs.Counting.{PairsAreMany};
ghost use Rattle.legal_moves.specs.Going.{AreThrowers, position_of};

use crate::throws::{count_moved, find_throwers};
use crate::turns::{Throwers, Turn};
use hand_rules::{count_bring_places, may_bring};
use hive_model::{Board, Cuts, Piece, PlaceList};

/// To how many places the piece may go. `open_places` is the number of places where the side may
/// place, if it may bring any piece, and `places` is a list to write on.
fn count_piece<B: Cuts>(
    board: &B,
    turn: &Turn,
    throwers: &Throwers,
    open_places: usize,
    piece: Piece,
    places: &mut PlaceList,
) -> usize
    requires board { IsBoard (B.stacks board.now) }
    requires throwers { AreThrowers (position_of (B.stacks board.now) turn.now) throwers.now }
    requires places { CanBring turn.now.game_type (B.stacks board.now) turn.now.side turn.now.number
        → AreMany (MayPlace (B.stacks board.now) turn.now.side) open_places }
    ensures { AreMany (LegalPair (position_of (B.stacks board.now) turn.now) piece) result }
{
    if may_bring(turn.game_type, board, turn.side, turn.number, piece) {
        return open_places;
    }
    count_moved(board, turn, throwers, piece, places)
}

/// How many legal moves of pieces there are. Where several kinds may be placed, their places are
/// found once.
fn count_pairs<B: Cuts>(board: &B, turn: &Turn) -> u32
    requires { IsBoard (B.stacks board.now) }
    ensures { PairsAreMany (LegalPair (position_of (B.stacks board.now) turn.now)) 28 result }
{
    let open_places = count_bring_places(turn.game_type, board, turn.side, turn.number);
    let throwers = find_throwers(board, turn);
    let mut places = PlaceList::new();
    let mut count = 0u32;
    for x in 0..28u8 {
        let piece = Piece::at(x);
        count += count_piece(board, turn, &throwers, open_places, piece, &mut places) as u32;
    }
    count
}

/// How many legal moves there are in this turn, the pass among them: the length of the list that
/// `list` makes. No move is listed. `over` says whether the game is over; no move is legal then.
pub fn count_moves<B: Cuts>(board: &B, turn: &Turn, over: bool) -> u32
    requires { over ≡ is_over (position_of (B.stacks board.now) turn.now) }
    ensures { result ≡ length (moves (position_of (B.stacks board.now) turn.now)) }
{
    if over {
        return 0;
    }
    board.lemma_board();
    let pairs = count_pairs(board, turn);
    if pairs == 0 {
        return 1;
    }
    pairs
}
