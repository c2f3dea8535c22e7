//! The pieces that a side may bring into play, and its placements.

ghost use Rattle.std.specs.Prelude.{◌≡◌, ◌↔◌, ◌+◌, ◌≤◌, [], ◌++◌, map, length, IsTrue};
ghost use Rattle.hive_model.specs.declared.places.Place.{Place};
ghost use Rattle.hive_model.specs.declared.places.Move.TheVariants.{To};
ghost use Rattle.hive_model.specs.Pieces.{colour_of};
ghost use Rattle.hive_model.specs.Placement.{IsLeastInHand, MayPlace};
ghost use Rattle.hive_model.specs.PlaceLists.{AreAll};
ghost use Rattle.hive_model.specs.Stack.{without_level};
ghost use Rattle.bug_moves.specs.Counts.{AreMany};
ghost use Rattle.hand_rules.specs.Listing.{last_level, ListsAll};
ghost use Rattle.hand_rules.specs.Bringing.{MayBring, CanBring, IsPlacementMove, position_awake};

use crate::hands::{in_hand, next_of};
use crate::open_places::{count_placement_places, placement_places};
use hive_model::{Board, Colour, GameType, Kind, Move, MoveStack, Piece, Place, PlaceList};

/// Whether the piece is in hand, and none of its kind and colour with a smaller number is.
fn is_next<B: Board>(game_type: GameType, board: &B, piece: Piece) -> bool
    ensures { IsTrue result ↔ IsLeastInHand game_type (B.stacks board.now) piece }
{
    match next_of(game_type, board, piece.colour(), piece.kind()) {
        Some(next) => next.index() == piece.index(),
        None => false,
    }
}

/// Whether the side may bring this piece into play in its turn of this number. The piece is the
/// side's and the next of its kind. On its first turn a side brings no queen; on its fourth or a
/// later turn, while its queen is in hand, nothing else. A piece of the other side or of the board
/// is answered for without a call.
#[inline(always)]
pub fn may_bring<B: Board>(
    game_type: GameType,
    board: &B,
    colour: Colour,
    turn: u32,
    piece: Piece,
) -> bool
    ensures { IsTrue result ↔ MayBring game_type (B.stacks board.now) colour turn piece }
{
    if !piece.colour().is(colour) || board.spot(piece).is_some() {
        return false;
    }
    may_bring_from_hand(game_type, board, colour, turn, piece)
}

/// `may_bring`, where the piece is the side's.
#[inline(never)]
fn may_bring_from_hand<B: Board>(
    game_type: GameType,
    board: &B,
    colour: Colour,
    turn: u32,
    piece: Piece,
) -> bool
    requires { colour_of piece ≡ colour }
    ensures { IsTrue result ↔ MayBring game_type (B.stacks board.now) colour turn piece }
{
    if !in_hand(game_type, board, piece) {
        return false;
    }
    let is_queen = matches!(piece.kind(), Kind::Queen);
    if is_queen && turn == 1 {
        return false;
    }
    if !is_queen && turn >= 4 && board.spot(colour.queen()).is_none() {
        return false;
    }
    is_next(game_type, board, piece)
}

/// Whether the side may bring any piece into play in its turn of this number.
fn can_bring<B: Board>(game_type: GameType, board: &B, colour: Colour, turn: u32) -> bool
    ensures { IsTrue result ↔ CanBring game_type (B.stacks board.now) colour turn }
{
    for x in 0..28u8 {
        if may_bring(game_type, board, colour, turn, Piece::at(x)) {
            return true;
        }
    }
    false
}

/// Lists all places where a piece of this colour may be placed, by q and then r, each once, if the
/// side may bring any piece into play in its turn of this number, and else none.
pub fn bring_places<B: Board>(
    game_type: GameType,
    board: &B,
    colour: Colour,
    turn: u32,
    out: &mut PlaceList,
)
    requires { out.old.items ≡ [] }
    ensures all { CanBring game_type (B.stacks board.now) colour turn
        → AreAll (MayPlace (B.stacks board.now) colour) out.new.items }
    ensures none { (¬ CanBring game_type (B.stacks board.now) colour turn) → out.new.items ≡ [] }
{
    if can_bring(game_type, board, colour, turn) {
        placement_places(board, colour, out);
    }
}

/// At how many places a piece of this colour may be placed, if the side may bring any piece into
/// play in its turn of this number, and else 0.
pub fn count_bring_places<B: Board>(
    game_type: GameType,
    board: &B,
    colour: Colour,
    turn: u32,
) -> usize
    ensures many { CanBring game_type (B.stacks board.now) colour turn
        → AreMany (MayPlace (B.stacks board.now) colour) result }
    ensures none { (¬ CanBring game_type (B.stacks board.now) colour turn) → result ≡ 0 }
{
    if can_bring(game_type, board, colour, turn) {
        return count_placement_places(board, colour);
    }
    0
}

/// Puts the piece's move to each of the places at the end of the last level, in their order.
pub fn push_each(piece: Piece, places: &[Place], out: &mut MoveStack)
    requires level { 1 ≤ length out.old.lists }
    requires room { length (last_level out.old) + length places.now ≤ 5488 }
    ensures added { last_level out.new ≡ last_level out.old ++ map (λ q. To piece q) places.now }
    ensures levels { length out.new.lists ≡ length out.old.lists }
    ensures others { without_level out.new ≡ without_level out.old }
{
    for place in places {
        out.push(Move::To {
            piece,
            place: *place,
        });
    }
}

/// Puts all placements of the side in its turn of this number on the last level: by piece, then by
/// q and r of the place, each once. `colour` is the side to move, and `turn` counts from 1.
pub fn placements<B: Board>(
    game_type: GameType,
    board: &B,
    colour: Colour,
    turn: u32,
    out: &mut MoveStack,
)
    requires level { 1 ≤ length out.old.lists }
    requires empty { last_level out.old ≡ [] }
    ensures { ListsAll (IsPlacementMove (position_awake game_type (B.stacks board.now) colour turn))
        out.old out.new }
{
    if !can_bring(game_type, board, colour, turn) {
        return;
    }
    let mut places = PlaceList::new();
    placement_places(board, colour, &mut places);
    for x in 0..28u8 {
        let piece = Piece::at(x);
        if may_bring(game_type, board, colour, turn, piece) {
            push_each(piece, places.as_slice(), out);
        }
    }
}
