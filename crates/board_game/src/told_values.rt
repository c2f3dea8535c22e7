//! What is found about a board without a piece, and what is known by it without a play.

ghost use Rattle.std.specs.Prelude.{◌≡◌, ◌≤ℤ◌, false, IfSome, IsTrue};
ghost use Rattle.std.specs.Option.{IsSomeAnd};
ghost use Rattle.hive_model.specs.declared.pieces.Colour.TheVariants.{White, Black};
ghost use Rattle.hive_model.specs.declared.places.Move.TheVariants.{To};
ghost use Rattle.hive_model.specs.Boards.{without};
ghost use Rattle.hive_model.specs.Games.{after};
ghost use Rattle.hive_model.specs.Hive.{OneHive};
ghost use Rattle.hive_model.specs.Legal.{is_surrounded};
ghost use Rattle.hive_model.specs.Minimax.{value};
ghost use Rattle.hive_model.specs.Pieces.{other_side};
ghost use Rattle.hive_model.specs.Places.{IsWithin};
ghost use Rattle.hive_model.specs.Positions.{Position};
ghost use Rattle.leaf_worth.specs.Bases.{IsFound};
ghost use Rattle.cut_keeper.specs.Keeping.{Keeps};
ghost use Rattle.board_game.specs.Asked.{IsAsked, IsWhole, MayAsk};
ghost use Rattle.board_game.specs.Replayed.{CanBeTaken};

use cut_keeper::{CutKeeper, removed_uncounted};
use hive_model::{Board, Colour, Lifted, Piece, Place};
use leaf_worth::BoardWithout;

/// Finds what is known of the whole board, unless it was found before. The board is one hive, and
/// the keeper stands for it.
pub fn find_whole<B: Board>(
    board: &B,
    keeper: &CutKeeper,
    known: &mut Option<BoardWithout>,
    side: Colour,
)
    requires keeps { Keeps (B.stacks board.now) keeper.now }
    requires one_hive { OneHive (B.stacks board.now) }
    requires known { IsWhole (B.stacks board.now) side known.old }
    ensures { IsSomeAnd known.new (IsFound (B.stacks board.now) side) }
{
    if known.is_none() {
        *known = Some(BoardWithout::of_hive(board, keeper.again(), side));
    }
}

/// What is found about the board without the piece, which is in hand or on top. For a piece in hand
/// it is what was found about the whole board. The keeper stands for the board, which is one hive
/// with the piece and without it. No queen is surrounded on it.
fn base_without<B: Board>(
    board: &B,
    keeper: &CutKeeper,
    whole: &BoardWithout,
    piece: Piece,
    side: Colour,
) -> BoardWithout
    requires loose { CanBeTaken (B.stacks board.now) piece }
    requires one_hive { OneHive (B.stacks board.now) }
    requires left { OneHive (without (B.stacks board.now) piece) }
    requires may { MayAsk (B.stacks board.now) keeper.now }
    requires whole { IsFound (B.stacks board.now) side whole.now }
    ensures { IsFound (without (B.stacks board.now) piece) side result }
{
    match board.spot(piece) {
        Some(spot) => {
            let mut known = keeper.again();
            let left = Lifted::new(board, piece);
            removed_uncounted(&mut known, &left, piece, spot.place);
            BoardWithout::of_hive(&left, known, side)
        }
        None => whole.again(),
    }
}

/// The value of the position after the piece goes to the place, if it is known without a play. It
/// is the value to that position's side to move. The piece comes from the hand or from the top of
/// its place.
pub fn value_by<B: Board>(
    board: &B,
    base: &BoardWithout,
    piece: Piece,
    place: Place,
    side: Colour,
) -> Option<i32>
    requires found { IsFound (without (B.stacks board.now) piece) side base.now }
    requires loose { CanBeTaken (B.stacks board.now) piece }
    requires within { IsWithin 9000 place }
    requires white { is_surrounded (B.stacks board.now) White ≡ false }
    requires black { is_surrounded (B.stacks board.now) Black ≡ false }
    ensures { (p : Position) → p.board ≡ B.stacks board.now → other_side p.side ≡ side → IfSome
        result (λ v. v ≡ value (after p (To piece place)) 0) }
{
    match board.spot(piece) {
        Some(_) => base.value_after(&Lifted::new(board, piece), piece, place, side),
        None => base.value_after(board, piece, place, side),
    }
}

/// A lower bound of that value. It is the value itself if that is known without a play, otherwise a
/// bound if there is one.
pub fn least_by<B: Board>(
    board: &B,
    base: &BoardWithout,
    piece: Piece,
    place: Place,
    side: Colour,
) -> Option<i32>
    requires found { IsFound (without (B.stacks board.now) piece) side base.now }
    requires loose { CanBeTaken (B.stacks board.now) piece }
    requires within { IsWithin 9000 place }
    requires white { is_surrounded (B.stacks board.now) White ≡ false }
    requires black { is_surrounded (B.stacks board.now) Black ≡ false }
    ensures { (p : Position) → p.board ≡ B.stacks board.now → other_side p.side ≡ side → IfSome
        result (λ v. v ≤ℤ value (after p (To piece place)) 0) }
{
    match board.spot(piece) {
        Some(_) => base.least_after(&Lifted::new(board, piece), piece, place, side),
        None => base.least_after(board, piece, place, side),
    }
}

/// Whether this piece was asked for last.
fn is_asked(asked: &Option<(Piece, BoardWithout)>, piece: Piece) -> bool
    ensures { IsTrue result → IsSomeAnd asked.now (λ a. a.0 ≡ piece) }
{
    match asked {
        Some((other, _)) => *other == piece,
        None => false,
    }
}

/// Finds what is known of the board without the piece, by what was found about the whole board,
/// unless this piece was asked for last. The keeper stands for the board, which is one hive with
/// the piece and without it. No queen is surrounded on it.
pub fn find_base<B: Board>(
    board: &B,
    keeper: &CutKeeper,
    whole: &BoardWithout,
    asked: &mut Option<(Piece, BoardWithout)>,
    piece: Piece,
    side: Colour,
)
    requires whole { IsFound (B.stacks board.now) side whole.now }
    requires asked { IsAsked (B.stacks board.now) side asked.old }
    requires loose { CanBeTaken (B.stacks board.now) piece }
    requires one_hive { OneHive (B.stacks board.now) }
    requires left { OneHive (without (B.stacks board.now) piece) }
    requires may { MayAsk (B.stacks board.now) keeper.now }
    ensures { IsSomeAnd asked.new (λ a. (a.0 ≡ piece)
        × IsFound (without (B.stacks board.now) piece) side a.1) }
{
    if !is_asked(asked, piece) {
        *asked = Some((piece, base_without(board, keeper, whole, piece, side)));
    }
}
