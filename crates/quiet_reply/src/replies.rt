//! Quiet replies.

ghost use Rattle.std.specs.Prelude.{
  ◌≡◌,
  ◌≢◌,
  None,
  false,
  IfSome,
  IsTrue,
  negsuc,
  pos,
  ◌+ℤ◌,
  ◌-ℤ◌,
  ◌<ℤ◌,
  ◌≤ℤ◌,
};
ghost use Rattle.hive_model.specs.declared.pieces.Colour.TheVariants.{White, Black};
ghost use Rattle.hive_model.specs.Legal.{is_surrounded};
ghost use Rattle.hive_model.specs.declared.pieces.Kind.TheVariants.{Queen};
ghost use Rattle.hive_model.specs.Pieces.{kind_of};
ghost use Rattle.hive_model.specs.Minimax.{value};
ghost use Rattle.hand_rules.specs.Bringing.{MayBring};
ghost use Rattle.legal_moves.specs.Going.{position_of};
ghost use Rattle.quiet_reply.specs.Quiet.{rest_weight};

use crate::places::find_quiet;
use hand_rules::may_bring;
use hive_eval::weight_of;
use hive_model::{Board, Colour, Kind, Piece, Place, is_walled};
use legal_moves::Turn;

/// A piece other than a queen that the side to move may place.
fn any_brought<B: Board>(board: &B, turn: &Turn) -> Option<Piece>
    ensures brought { IfSome result (MayBring turn.now.game_type (B.stacks board.now) turn.now.side
        turn.now.number) }
    ensures no_queen { IfSome result (λ x. kind_of x ≢ Queen) }
{
    for x in 0..28u8 {
        let piece = Piece::at(x);
        if matches!(piece.kind(), Kind::Queen) {
            continue;
        }
        if may_bring(turn.game_type, board, turn.side, turn.number, piece) {
            return Some(piece);
        }
    }
    None
}

/// Whether the side's queen is in hand or has an empty neighbour.
#[tactic(auto, using(hive_model::proofs::PlaceLemmas::wider, hive_model::proofs::PlaceLemmas::wider_on_board))]
fn is_open<B: Board>(board: &B, side: Colour) -> bool
    ensures { IsTrue result → is_surrounded (B.stacks board.now) side ≡ false }
{
    match board.spot(side.queen()) {
        Some(spot) => !is_walled(board, spot.place),
        None => true,
    }
}

/// The place of a quiet reply of the side to move: one more ply of best play costs it at most the
/// weight of the resting piece. The hint is tried first. None if no such reply is found or the game
/// is over.
pub fn quiet_reply<B: Board>(board: &B, turn: &Turn, hint: Option<Place>) -> Option<Place>
    ensures { IfSome result (λ q. value (position_of (B.stacks board.now) turn.now) 0
        ≤ℤ (value (position_of (B.stacks board.now) turn.now) 1
        +ℤ pos (rest_weight turn.now.rest))) }
{
    if !is_open(board, Colour::White) {
        return None;
    }
    if !is_open(board, Colour::Black) {
        return None;
    }
    board.lemma_board();
    let piece = any_brought(board, turn)?;
    let _number = piece.index();
    find_quiet(board, turn.side, hint)
}

/// The weight of the piece that rests, once it is free and no longer rests.
fn rest_weight(rest: &Option<Piece>) -> i32
    ensures weight { result ≡ pos (rest_weight rest.now) }
    ensures most { result ≤ℤ pos 10 }
{
    let Some(piece) = rest else {
        return 0;
    };
    weight_of(piece.kind())
}

/// An upper bound on the value of a move with one ply searched after it, for the side that made it,
/// if there is a quiet reply. `least` is a lower bound on the value at depth 0 of the position
/// after the move, for its side to move. None if `least` is below -1,000,000,000, which no value
/// is.
pub fn most_worth(turn: &Turn, least: i32) -> Option<i32>
    ensures most { IfSome result (λ b. b ≡ (pos (rest_weight turn.now.rest) -ℤ least)) }
    ensures low { result ≡ None → least <ℤ negsuc 999999999 }
{
    let weight = rest_weight(&turn.rest);
    if least < -1_000_000_000 {
        return None;
    }
    Some(weight - least)
}
