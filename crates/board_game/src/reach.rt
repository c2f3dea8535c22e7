//! Upper bounds of what a piece's moves are worth with no ply left after them. They are computed
//! once for all places that the piece may go to.

ghost use Rattle.std.specs.Prelude.{◌≡◌, ◌≤ℤ◌, false, IsNone, IsTrue};
ghost use Rattle.std.specs.Option.{IsSomeAnd};
ghost use Rattle.hive_model.specs.declared.pieces.Colour.TheVariants.{White, Black};
ghost use Rattle.hive_model.specs.declared.places.Move.TheVariants.{To};
ghost use Rattle.hive_model.specs.Boards.{spot_of, without};
ghost use Rattle.hive_model.specs.Legal.{is_surrounded};
ghost use Rattle.hive_model.specs.Minimax.{reply_value};
ghost use Rattle.hive_model.specs.Pieces.{other_side};
ghost use Rattle.hive_model.specs.Positions.{Position};
ghost use Rattle.leaf_worth.specs.Bases.{IsFound};
ghost use Rattle.leaf_bounds.specs.Most.{IsAfar};
ghost use Rattle.board_game.specs.Reaches.{Goes, IsPlacing, IsReach, IsReachWithout};
ghost use Rattle.board_game.specs.Replayed.{CanBeTaken};

use hive_model::{Board, Colour, Lifted, Piece, Place};
use leaf_bounds::{is_afar, most_afar, most_of_piece, most_of_placements};
use leaf_worth::BoardWithout;

/// Upper bounds of what a move of the piece is worth to the side that makes it. One holds wherever
/// the piece goes. The other holds if it adds no neighbour to the other's queen. A number is
/// missing if no bound is known.
#[derive(Drop)]
pub struct Reach {
    pub piece: Piece,
    pub most: Option<i32>,
    pub afar: Option<i32>,
}

impl Reach {
    /// A copy of the reach.
    pub fn again(&self) -> Reach
        ensures { result ≡ self.now }
    {
        Reach {
            piece: self.piece,
            most: self.most,
            afar: self.afar,
        }
    }
}

/// An upper bound of what any placement is worth to the side that makes it, if one is known.
#[derive(Clone, Copy)]
pub struct Placing {
    pub most: Option<i32>,
}

/// The reach of the piece, by what was found about the board without it. No queen is surrounded on
/// that board.
fn reach_without<B: Board>(board: &B, base: &BoardWithout, piece: Piece, side: Colour) -> Reach
    requires found { IsFound (B.stacks board.now) side base.now }
    requires absent { IsNone (spot_of (B.stacks board.now) piece) }
    requires white { is_surrounded (B.stacks board.now) White ≡ false }
    requires black { is_surrounded (B.stacks board.now) Black ≡ false }
    ensures piece { result.piece ≡ piece }
    ensures reach { IsReachWithout (B.stacks board.now) side result }
{
    let held = base.held(board, side.other());
    let most = most_of_piece(base, board, held, piece, side);
    let afar = most_afar(base, board, held, piece, side);
    Reach { piece, most, afar }
}

/// The reach of the piece, which is in hand or on top, by what was found about the board without
/// it.
pub fn reach_by<B: Board>(board: &B, base: &BoardWithout, piece: Piece, side: Colour) -> Reach
    requires found { IsFound (without (B.stacks board.now) piece) side base.now }
    requires loose { CanBeTaken (B.stacks board.now) piece }
    requires white { is_surrounded (B.stacks board.now) White ≡ false }
    requires black { is_surrounded (B.stacks board.now) Black ≡ false }
    ensures piece { result.piece ≡ piece }
    ensures reach { IsReach (B.stacks board.now) side result }
{
    match board.spot(piece) {
        Some(_) => reach_without(&Lifted::new(board, piece), base, piece, side),
        None => reach_without(board, base, piece, side),
    }
}

/// An upper bound of what any placement is worth, by what was found about the whole board.
pub fn placing_by<B: Board>(board: &B, whole: &BoardWithout, side: Colour) -> Placing
    requires found { IsFound (B.stacks board.now) side whole.now }
    requires white { is_surrounded (B.stacks board.now) White ≡ false }
    requires black { is_surrounded (B.stacks board.now) Black ≡ false }
    ensures { IsPlacing (B.stacks board.now) side result }
{
    let held = whole.held(board, side.other());
    Placing {
        most: most_of_placements(whole, board, held, side),
    }
}

/// Whether the bound is known and at most alpha.
fn is_no_more(bound: Option<i32>, alpha: i32) -> bool
    ensures { IsTrue result → IsSomeAnd bound (λ v. v ≤ℤ alpha) }
{
    match bound {
        Some(most) => most <= alpha,
        None => false,
    }
}

/// Whether the piece adds no neighbour to the side's queen if it goes to the place. The piece is in
/// hand or on top.
fn goes_afar<B: Board>(board: &B, piece: Piece, place: Place, side: Colour) -> bool
    requires { CanBeTaken (B.stacks board.now) piece }
    ensures { IsTrue result → IsAfar (without (B.stacks board.now) piece) side place }
{
    match board.spot(piece) {
        Some(_) => is_afar(&Lifted::new(board, piece), side, place),
        None => is_afar(board, side, place),
    }
}

/// Whether a move to the place is worth no more than alpha, by the reach of its piece. The piece is
/// in hand or on top.
pub fn is_out_of_reach<B: Board>(
    reach: &Reach,
    board: &B,
    place: Place,
    side: Colour,
    alpha: i32,
) -> bool
    requires reach { IsReach (B.stacks board.now) side reach.now }
    requires loose { CanBeTaken (B.stacks board.now) reach.now.piece }
    ensures { IsTrue result → (p : Position) → p.board ≡ B.stacks board.now → other_side p.side
        ≡ side → Goes p reach.now.piece place
        → reply_value p 0 (To reach.now.piece place) ≤ℤ alpha }
{
    if is_no_more(reach.most, alpha) {
        return true;
    }
    if !is_no_more(reach.afar, alpha) {
        return false;
    }
    goes_afar(board, reach.piece, place, side)
}
