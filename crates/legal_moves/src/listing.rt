//! The list of legal moves.

ghost use Rattle.std.specs.Prelude.{◌≡◌, ◌+◌, ◌≤◌, [], length};
ghost use Rattle.hive_model.specs.PlaceLists.{AreAll};
ghost use Rattle.hive_model.specs.Boards.{IsBoard};
ghost use Rattle.hive_model.specs.Placement.{MayPlace};
ghost use Rattle.hive_model.specs.Legal.{is_over, moves, LegalPair};
ghost use Rattle.hive_model.specs.Stack.{with_level};
ghost use Rattle.hand_rules.specs.Listing.{last_level, IsPairBelow, ListsAll, GainsPlaces};
ghost use Rattle.hand_rules.specs.Bringing.{CanBring};
ghost use Rattle.legal_moves.specs.Going.{AreThrowers, position_of};

use crate::throws::{find_throwers, moved_places};
use crate::turns::{Throwers, Turn};
use hand_rules::{bring_places, may_bring, push_each};
use hive_model::{Board, Cuts, Move, MoveStack, Piece, PlaceList};

/// Puts the legal moves of the piece at the end of the last level. `open_places` are the places
/// where the side may place, if it may bring any piece, and `places` is a list to write on.
fn push_piece<B: Cuts>(
    board: &B,
    turn: &Turn,
    throwers: &Throwers,
    open_places: &PlaceList,
    piece: Piece,
    places: &mut PlaceList,
    out: &mut MoveStack,
)
    requires board { IsBoard (B.stacks board.now) }
    requires throwers { AreThrowers (position_of (B.stacks board.now) turn.now) throwers.now }
    requires places { CanBring turn.now.game_type (B.stacks board.now) turn.now.side turn.now.number
        → AreAll (MayPlace (B.stacks board.now) turn.now.side) open_places.now.items }
    requires level { 1 ≤ length out.old.lists }
    requires room { length (last_level out.old) + 196 ≤ 5488 }
    ensures { GainsPlaces (LegalPair (position_of (B.stacks board.now) turn.now) piece) piece
        out.old out.new }
{
    if may_bring(turn.game_type, board, turn.side, turn.number, piece) {
        push_each(piece, open_places.as_slice(), out);
        return;
    }
    places.clear();
    moved_places(board, turn, throwers, piece, places);
    push_each(piece, places.as_slice(), out);
}

/// Puts all legal moves of pieces on the last level, which holds none yet: by piece, then by q and
/// r of the place, each once.
fn push_pairs<B: Cuts>(board: &B, turn: &Turn, out: &mut MoveStack)
    requires board { IsBoard (B.stacks board.now) }
    requires level { 1 ≤ length out.old.lists }
    requires empty { last_level out.old ≡ [] }
    ensures { ListsAll (IsPairBelow (LegalPair (position_of (B.stacks board.now) turn.now)) 28)
        out.old out.new }
{
    let mut open_places = PlaceList::new();
    bring_places(
        turn.game_type,
        board,
        turn.side,
        turn.number,
        &mut open_places,
    );
    let throwers = find_throwers(board, turn);
    let mut places = PlaceList::new();
    for x in 0..28u8 {
        push_piece(
            board,
            turn,
            &throwers,
            &open_places,
            Piece::at(x),
            &mut places,
            out,
        );
    }
}

/// Begins a level and fills it with the legal moves in this turn: by piece, then by q and r of the
/// place, each once; the pass alone where no piece can move; none where the game is over, as `over`
/// says.
pub fn list<B: Cuts>(board: &B, turn: &Turn, over: bool, out: &mut MoveStack)
    requires level { 1 ≤ out.old.free }
    requires over { over ≡ is_over (position_of (B.stacks board.now) turn.now) }
    ensures { out.new ≡ with_level out.old (moves (position_of (B.stacks board.now) turn.now)) }
{
    out.begin_level();
    if over {
        return;
    }
    board.lemma_board();
    push_pairs(board, turn, out);
    if out.level_len(out.levels() - 1) == 0 {
        out.push(Move::Pass);
    }
}
