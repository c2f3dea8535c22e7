//! The bounds of a piece and of all placements.

ghost use Rattle.std.specs.Prelude.{
  ◌≡◌,
  ◌<◌,
  ◌≤◌,
  ◌≤ℤ◌,
  ◌+ℤ◌,
  max,
  pos,
  neg_ℤ,
  None,
  false,
  IsNone,
  IsTrue,
  IfSome,
  ℕ,
};
ghost use Rattle.hive_model.specs.declared.pieces.Colour.TheVariants.{White, Black};
ghost use Rattle.hive_model.specs.declared.places.Place.{Place as AnyPlace};
ghost use Rattle.hive_model.specs.declared.places.Move.TheVariants.{To};
ghost use Rattle.hive_model.specs.Boards.{put, spot_of, without};
ghost use Rattle.hive_model.specs.Evaluation.{evaluation, round_queen};
ghost use Rattle.hive_model.specs.Games.{after};
ghost use Rattle.hive_model.specs.Hive.{OneHive, are_neighbours};
ghost use Rattle.hive_model.specs.Legal.{is_surrounded};
ghost use Rattle.hive_model.specs.Minimax.{value};
ghost use Rattle.hive_model.specs.Pieces.{other_side};
ghost use Rattle.hive_model.specs.Places.{IsWithin};
ghost use Rattle.hive_model.specs.Placement.{HasColour, Placement};
ghost use Rattle.hive_model.specs.Positions.{Position};
ghost use Rattle.leaf_worth.specs.Bases.{IsFound};
ghost use Rattle.leaf_worth.specs.Held.{held_weight};
ghost use Rattle.leaf_bounds.specs.Most.{IsAfar, IsQueenOpen, greatest_weight, queen_gain};

use hive_eval::occupied_round;
use hive_model::{Board, Colour, Piece, Place};
use leaf_worth::BoardWithout;

/// What one more neighbour of the side's queen counts, at most 40. There is no answer if she has
/// five or six.
#[tactic(auto, using(hive_model::proofs::PlaceLemmas::wider, hive_model::proofs::PlaceLemmas::wider_on_board))]
fn queen_gain<B: Board>(board: &B, side: Colour) -> Option<u32>
    ensures gain { IfSome result (λ g. g ≡ queen_gain (B.stacks board.now) side) }
    ensures most { IfSome result (λ g. g ≤ 40) }
    ensures few { IfSome result (λ _. round_queen (B.stacks board.now) side < 5) }
{
    let Some(spot) = board.spot(side.queen()) else {
        return Some(0);
    };
    if occupied_round(board, spot.place) < 5 {
        Some(40)
    } else {
        None
    }
}

/// The weight, or the greatest weight of a piece if that is more.
fn at_least_one(weight: u32) -> u32
    requires { weight ≤ 280 }
    ensures most { result ≡ max greatest_weight weight }
    ensures few { result ≤ 280 }
{
    if weight < 10 { 10 } else { weight }
}

/// The board's worth to the side that does not move then, plus `more`.
fn turned_worth<B: Board>(base: &BoardWithout, board: &B, more: u32, side: Colour) -> i32
    requires found { IsFound (B.stacks board.now) side base.now }
    requires few { more ≤ 320 }
    ensures { result ≡ evaluation (B.stacks board.now) None (other_side side) +ℤ pos more }
{
    more as i32 - base.worth()
}

/// Whether a piece of the side is on the board.
fn has_own<B: Board>(board: &B, side: Colour) -> bool
    ensures { IsTrue result → HasColour (B.stacks board.now) side }
{
    for x in 0..28u8 {
        let piece = Piece::at(x);
        if !piece.colour().is(side) {
            continue;
        }
        if board.spot(piece).is_some() {
            return true;
        }
    }
    false
}

/// Whether the side's queen is in hand, or on top of her place.
fn is_queen_open<B: Board>(board: &B, side: Colour) -> bool
    ensures { IsTrue result → IsQueenOpen (B.stacks board.now) side }
{
    match board.spot(side.queen()) {
        Some(spot) => spot.level as u32 + 1 == board.height(spot.place) as u32,
        None => true,
    }
}

/// Whether the second place is not a neighbour of the first.
fn are_apart(from: Place, to: Place) -> bool
    requires { IsWithin 10000 from }
    ensures { IsTrue result → are_neighbours from to ≡ false }
{
    match from.towards(to) {
        Some(_) => false,
        None => true,
    }
}

/// Whether a piece that is put on the place adds no neighbour to the side's queen. Then it is
/// occupied, or it is no neighbour of hers.
#[tactic(auto, using(hive_model::proofs::PlaceLemmas::wider, hive_model::proofs::PlaceLemmas::wider_on_board))]
pub fn is_afar<B: Board>(board: &B, side: Colour, place: Place) -> bool
    ensures { IsTrue result → IsAfar (B.stacks board.now) side place }
{
    let is_high = board.height(place) > 0;
    if is_high {
        return true;
    }
    match board.spot(side.queen()) {
        Some(spot) => are_apart(spot.place, place),
        None => true,
    }
}

/// An upper bound of what it is worth to the side that moves to bring the piece anywhere, with no
/// ply left to search. The board must be one hive then, and each legal move leaves one. The board
/// is that of the position before, without the piece. `side` is the side to move after, for which
/// the base was found. `held` is the weight of the other side's held pieces.
///
/// There is no answer for the queen of the side to move after. There is none if she has five or six
/// neighbours, or if one place alone is occupied.
pub fn most_of_piece<B: Board>(
    base: &BoardWithout,
    board: &B,
    held: u32,
    piece: Piece,
    side: Colour,
) -> Option<i32>
    requires found { IsFound (B.stacks board.now) side base.now }
    requires held { held ≡ held_weight (B.stacks board.now) None (other_side side) }
    requires absent { IsNone (spot_of (B.stacks board.now) piece) }
    requires white { is_surrounded (B.stacks board.now) White ≡ false }
    requires black { is_surrounded (B.stacks board.now) Black ≡ false }
    ensures { (p : Position) → without p.board piece ≡ B.stacks board.now → other_side p.side
        ≡ side → (q : AnyPlace) → IsWithin 9000 q → OneHive (put (B.stacks board.now) piece q)
        → IfSome result (λ v. neg_ℤ (value (after p (To piece q)) 0) ≤ℤ v) }
{
    let _number = piece.index();
    board.lemma_board();
    if piece == side.queen() {
        return None;
    }
    if !base.has_two() {
        return None;
    }
    let gain = match queen_gain(board, side) {
        Some(gain) => gain,
        None => return None,
    };
    let most = gain + at_least_one(held);
    Some(turned_worth(base, board, most, side))
}

/// An upper bound of the worth of bringing the piece to any place but an empty one beside the
/// other's queen. It is the worth to the side that moves; the queen's side is the one to move
/// after. The board must be one hive then. The other conditions are those of `most_of_piece`, but
/// the queen may have five neighbours.
///
/// There is no answer for that queen herself, or if one place alone is occupied.
pub fn most_afar<B: Board>(
    base: &BoardWithout,
    board: &B,
    held: u32,
    piece: Piece,
    side: Colour,
) -> Option<i32>
    requires found { IsFound (B.stacks board.now) side base.now }
    requires held { held ≡ held_weight (B.stacks board.now) None (other_side side) }
    requires absent { IsNone (spot_of (B.stacks board.now) piece) }
    requires white { is_surrounded (B.stacks board.now) White ≡ false }
    requires black { is_surrounded (B.stacks board.now) Black ≡ false }
    ensures { (p : Position) → without p.board piece ≡ B.stacks board.now → other_side p.side
        ≡ side → (q : AnyPlace) → IsWithin 9000 q → OneHive (put (B.stacks board.now) piece q)
        → IsAfar (B.stacks board.now) side q
        → IfSome result (λ v. neg_ℤ (value (after p (To piece q)) 0) ≤ℤ v) }
{
    let _number = piece.index();
    board.lemma_board();
    if piece == side.queen() {
        return None;
    }
    if !base.has_two() {
        return None;
    }
    let most = at_least_one(held);
    Some(turned_worth(base, board, most, side))
}

/// An upper bound of what any placement is worth to the side that moves, with no ply left to
/// search. The board is that of the position before. `side` is the side to move after, for which
/// the base was found. `held` is the weight of the other side's held pieces.
///
/// There is no answer if the side that moves has no piece on the board, or if one place alone is
/// occupied. There is none if the queen of the side to move after is covered.
pub fn most_of_placements<B: Board>(
    base: &BoardWithout,
    board: &B,
    held: u32,
    side: Colour,
) -> Option<i32>
    requires found { IsFound (B.stacks board.now) side base.now }
    requires held { held ≡ held_weight (B.stacks board.now) None (other_side side) }
    requires white { is_surrounded (B.stacks board.now) White ≡ false }
    requires black { is_surrounded (B.stacks board.now) Black ≡ false }
    ensures { (p : Position) → p.board ≡ B.stacks board.now → other_side p.side ≡ side → (x : ℕ)
        → (q : AnyPlace) → IsWithin 9000 q → Placement p x q
        → IfSome result (λ v. neg_ℤ (value (after p (To x q)) 0) ≤ℤ v) }
{
    board.lemma_board();
    if !has_own(board, side.other()) {
        return None;
    }
    if !base.has_two() {
        return None;
    }
    if !is_queen_open(board, side) {
        return None;
    }
    Some(turned_worth(base, board, held, side))
}
