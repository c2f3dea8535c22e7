//! Whose turn it is.

ghost use Rattle.std.specs.Prelude.{◌≡◌};
ghost use Rattle.hive_model.specs.declared.pieces.Kind.TheVariants.{Mosquito, Pillbug};
ghost use Rattle.hive_model.specs.Pieces.{piece_of};
ghost use Rattle.hive_model.specs.Boards.{is_in_play};

use hive_model::{Board, Colour, GameType, Piece, Spot};
use one_hive::Marks;

/// The side to move, in a game of this type, the number of its turn from 1 on, and the piece that
/// rests: the one that was placed, moved or thrown on the last ply.
#[derive(Drop)]
pub struct Turn {
    pub game_type: GameType,
    pub side: Colour,
    pub number: u32,
    pub rest: Option<Piece>,
}

/// Where the pillbug and the mosquito of the side to move stand, each where it may throw.
#[derive(Drop)]
pub struct Throwers {
    pub pillbug: Option<Spot>,
    pub mosquito: Option<Spot>,
    /// The pieces that stand beside them, among which are all that they can lift.
    pub beside: Marks,
}

/// The same once more.
pub fn again(rest: &Option<Piece>) -> Option<Piece>
    ensures { result ≡ rest.now }
{
    *rest
}

/// Whether the piece is on the board.
pub fn is_in_play<B: Board>(board: &B, piece: Piece) -> bool
    ensures { result ≡ is_in_play (B.stacks board.now) piece }
{
    board.spot(piece).is_some()
}

/// The mosquito of a side.
pub fn mosquito_of(side: Colour) -> Piece
    ensures { result ≡ piece_of side Mosquito 0 }
{
    match side {
        Colour::White => Piece::at(11),
        Colour::Black => Piece::at(25),
    }
}

/// The pillbug of a side.
pub fn pillbug_of(side: Colour) -> Piece
    ensures { result ≡ piece_of side Pillbug 0 }
{
    match side {
        Colour::White => Piece::at(13),
        Colour::Black => Piece::at(27),
    }
}
