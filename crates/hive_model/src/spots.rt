//! The spots of the 28 pieces, stored as one array.

ghost use Rattle.std.specs.Prelude.{◌≡◌};
ghost use Rattle.hive_model.specs.Boards.{IsBoard, spot_of};
ghost use Rattle.hive_model.specs.Spots.{IsSpots, board_of};

use crate::pieces::Piece;
use crate::places::Spot;

/// The place and level of a piece, if it is on the board: one read.
pub fn spot_in(spots: &[Option<Spot>; 28], piece: Piece) -> Option<Spot>
    requires { IsSpots spots.now }
    ensures answer { result ≡ spot_of (board_of spots.now) piece }
    ensures board { IsBoard (board_of spots.now) }
{
    spots[piece.index() as usize]
}

/// Establishes that these spots are a board. Computes nothing.
pub fn spots_are_board(spots: &[Option<Spot>; 28])
    requires { IsSpots spots.now }
    ensures { IsBoard (board_of spots.now) }
{}
