//! A board without one piece, examined once for all places that the piece can go to.

ghost use Rattle.std.specs.Prelude.{◌≡◌, ◌≤◌, ◌≤ℤ◌, None, false, IsNone, IsTrue, IfSome};
ghost use Rattle.hive_model.specs.declared.pieces.Colour.TheVariants.{White, Black};
ghost use Rattle.hive_model.specs.declared.places.Move.TheVariants.{To};
ghost use Rattle.hive_model.specs.Boards.{spot_of, without};
ghost use Rattle.hive_model.specs.Games.{after};
ghost use Rattle.hive_model.specs.Hive.{OneHive};
ghost use Rattle.hive_model.specs.Legal.{is_surrounded};
ghost use Rattle.hive_model.specs.Minimax.{value};
ghost use Rattle.hive_model.specs.Pieces.{other_side};
ghost use Rattle.hive_model.specs.Places.{IsWithin};
ghost use Rattle.hive_model.specs.Positions.{Position};
ghost use Rattle.cut_keeper.specs.Keeping.{Keeps};
ghost use Rattle.leaf_worth.specs.Bases.{IsFound};
ghost use Rattle.leaf_worth.specs.Held.{held_weight};

use crate::least_after::{held_weight, least_after_put};
use crate::worth_after::{has_two_places, worth_after_put};
use cut_keeper::{CutKeeper, KeptCuts};
use hive_eval::evaluate;
use hive_model::{Board, Colour, Piece, Place};
use std::marker::Model;

/// What is found once about a board without one piece: a keeper, a worth and two facts. The keeper
/// stands for the board, and the worth is to a side while no piece rests. The facts are whether the
/// board is known to have two occupied places, and whether it is known to be one hive.
#[derive(Drop)]
pub struct BoardWithout {
    keeper: CutKeeper,
    worth: i32,
    two: bool,
    one: bool,
}

impl Model for BoardWithout {
    ghost use Rattle.leaf_worth.specs.Bases.{WithoutFacts};

    ghost Value = { WithoutFacts };

    ghost view = { λ b. record { keeper = b.keeper; worth = b.worth; two = b.two; one = b.one } };
}

impl BoardWithout {
    /// What is found about the board, which is one hive. The keeper stands for the board. The side
    /// is the one to move after the piece was put.
    pub fn of_hive<B: Board>(board: &B, keeper: CutKeeper, side: Colour) -> BoardWithout
        requires keeps { Keeps (B.stacks board.now) keeper }
        requires one_hive { OneHive (B.stacks board.now) }
        ensures { IsFound (B.stacks board.now) side result }
    {
        let two = has_two_places(board);
        let worth = evaluate(&KeptCuts::new(board, &keeper), side, None);
        BoardWithout {
            keeper,
            worth,
            two,
            one: true,
        }
    }

    /// The worth of the board, while no piece rests, to the side that it was found for.
    pub fn worth(&self) -> i32
        ensures { result ≡ self.now.worth }
    {
        self.worth
    }

    /// Whether the board is known to have two occupied places.
    pub fn has_two(&self) -> bool
        ensures { result ≡ self.now.two }
    {
        self.two
    }

    /// The total weight of the side's held pieces, at most 280. The board is the one that this was
    /// found for.
    pub fn held<B: Board>(&self, board: &B, side: Colour) -> u32
        requires { Keeps (B.stacks board.now) self.now.keeper }
        ensures weight { result ≡ held_weight (B.stacks board.now) None side }
        ensures few { result ≤ 280 }
    {
        held_weight(&KeptCuts::new(board, &self.keeper), &None, side)
    }

    /// A copy of the base.
    pub fn again(&self) -> BoardWithout
        ensures { result ≡ self.now }
    {
        BoardWithout {
            keeper: self.keeper.again(),
            worth: self.worth,
            two: self.two,
            one: self.one,
        }
    }

    /// The value of the position after the piece goes to the place, if it is known without a play.
    /// It is the value to that position's side to move, with no ply left to search. So the game is
    /// not over there. The board is that of the position before, without the piece, and no queen is
    /// surrounded on it.
    pub fn value_after<B: Board>(
        &self,
        board: &B,
        piece: Piece,
        place: Place,
        side: Colour,
    ) -> Option<i32>
        requires found { IsFound (B.stacks board.now) side self.now }
        requires absent { IsNone (spot_of (B.stacks board.now) piece) }
        requires within { IsWithin 9000 place }
        requires white { is_surrounded (B.stacks board.now) White ≡ false }
        requires black { is_surrounded (B.stacks board.now) Black ≡ false }
        ensures { (p : Position) → without p.board piece ≡ B.stacks board.now → other_side p.side
            ≡ side → IfSome result (λ v. v ≡ value (after p (To piece place)) 0) }
    {
        let known = KeptCuts::new(board, &self.keeper);
        worth_after_put(&known, self.worth, piece, place, side, self.two, self.one)
    }

    /// A lower bound of the value of the position after the piece goes to the place, if one is
    /// known. It is the value itself if that is known without a play. It is the value to that
    /// position's side to move, with no ply left to search. So the game is not over there. The
    /// board is that of the position before, without the piece, and no queen is surrounded on it.
    pub fn least_after<B: Board>(
        &self,
        board: &B,
        piece: Piece,
        place: Place,
        side: Colour,
    ) -> Option<i32>
        requires found { IsFound (B.stacks board.now) side self.now }
        requires absent { IsNone (spot_of (B.stacks board.now) piece) }
        requires within { IsWithin 9000 place }
        requires white { is_surrounded (B.stacks board.now) White ≡ false }
        requires black { is_surrounded (B.stacks board.now) Black ≡ false }
        ensures { (p : Position) → without p.board piece ≡ B.stacks board.now → other_side p.side
            ≡ side → IfSome result (λ v. v ≤ℤ value (after p (To piece place)) 0) }
    {
        let known = KeptCuts::new(board, &self.keeper);
        match worth_after_put(&known, self.worth, piece, place, side, self.two, self.one) {
            Some(worth) => Some(worth),
            None => least_after_put(&known, self.worth, piece, place, side),
        }
    }
}
