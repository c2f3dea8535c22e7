//! Pieces in hand.

ghost use Rattle.std.specs.Prelude.{◌≡◌, ◌↔◌, ◌≤◌, ◌+◌, IsTrue, IfSome, IsNone};
ghost use Rattle.hive_model.specs.Pieces.{kind_of, colour_of};
ghost use Rattle.hive_model.specs.Placement.{IsInHand, IsLeastInHand};
ghost use Rattle.hand_rules.specs.Hands.{HasNoneInHand, count_of, first_piece};

use hive_model::{Board, Colour, GameType, Kind, Piece};

/// Whether the piece is in hand: of the game type and on no place.
pub fn in_hand<B: Board>(game_type: GameType, board: &B, piece: Piece) -> bool
    ensures { IsTrue result ↔ IsInHand game_type (B.stacks board.now) piece }
{
    board.spot(piece).is_none() && game_type.has(piece.kind())
}

/// The index of the side's first piece of the kind. All of them are among the 28 pieces.
#[tactic(auto, using(crate::proofs::KindLaws::piece_end))]
fn first_piece(colour: Colour, kind: Kind) -> u8
    ensures first { result ≡ first_piece colour kind }
    ensures within { result + count_of kind ≤ 28 }
{
    colour.first() + kind.first()
}

/// How many pieces of the kind a side has.
fn count_of(kind: Kind) -> u8
    ensures { result ≡ count_of kind }
{
    match kind.most() {
        0 => 1,
        most => most,
    }
}

/// The side's next piece of this kind: of those in hand the one with the least number. `None` where
/// none of the kind is in hand.
pub fn next_of<B: Board>(
    game_type: GameType,
    board: &B,
    colour: Colour,
    kind: Kind,
) -> Option<Piece>
    ensures kind { IfSome result (λ x. kind_of x ≡ kind) }
    ensures colour { IfSome result (λ x. colour_of x ≡ colour) }
    ensures least { IfSome result (λ x. IsLeastInHand game_type (B.stacks board.now) x) }
    ensures none { IsNone result ↔ HasNoneInHand game_type (B.stacks board.now) colour kind }
{
    let first = first_piece(colour, kind);
    let end = first + count_of(kind);
    for x in first..end {
        let piece = Piece::at(x);
        if in_hand(game_type, board, piece) {
            return Some(piece);
        }
    }
    None
}
