//! What was found about the current board, so that a move can be valued without a play.

ghost use Rattle.std.specs.Prelude.{◌≡◌, ◌≤ℤ◌, None, Some, IfSome};
ghost use Rattle.std.specs.Option.{IsSomeAnd};
ghost use Rattle.hive_model.specs.declared.places.Move.TheVariants.{To};
ghost use Rattle.hive_model.specs.Boards.{without};
ghost use Rattle.hive_model.specs.Games.{after};
ghost use Rattle.hive_model.specs.Hive.{OneHive};
ghost use Rattle.hive_model.specs.Minimax.{value};
ghost use Rattle.hive_model.specs.Pieces.{other_side};
ghost use Rattle.hive_model.specs.Positions.{Position};
ghost use Rattle.leaf_worth.specs.Bases.{IsFound};
ghost use Rattle.board_game.specs.Asked.{IsKnown, MayAsk, MayLift};
ghost use Rattle.board_game.specs.Reaches.{IsPlacing, IsReach};
ghost use Rattle.board_game.specs.Replayed.{CanMake};

use crate::reach::{Placing, Reach, placing_by, reach_by};
use crate::told_values::{find_base, find_whole, least_by, value_by};
use cut_keeper::CutKeeper;
use hive_model::{Board, Colour, Piece, Place};
use leaf_worth::BoardWithout;

/// What was found for the side to move after the next move. It holds what is known of the whole
/// board, and of the board without the piece that was asked for last. It also holds the reach of
/// the piece that was last asked for its bounds, and the bound of all placements.
#[derive(Drop)]
pub struct Lookahead {
    pub whole: Option<BoardWithout>,
    pub asked: Option<(Piece, BoardWithout)>,
    pub reach: Option<Reach>,
    pub placing: Option<Placing>,
}

impl Lookahead {
    /// A record in which nothing was found yet.
    pub fn new() -> Lookahead
        ensures whole { result.whole ≡ None }
        ensures asked { result.asked ≡ None }
        ensures reach { result.reach ≡ None }
        ensures placing { result.placing ≡ None }
    {
        Lookahead {
            whole: None,
            asked: None,
            reach: None,
            placing: None,
        }
    }

    /// Takes out what was found, and leaves a record in which nothing was found yet.
    pub fn take(&mut self) -> Lookahead
        ensures taken { result ≡ self.old }
        ensures whole { self.new.whole ≡ None }
        ensures asked { self.new.asked ≡ None }
        ensures reach { self.new.reach ≡ None }
        ensures placing { self.new.placing ≡ None }
    {
        Lookahead {
            whole: self.whole.take(),
            asked: self.asked.take(),
            reach: self.reach.take(),
            placing: self.placing.take(),
        }
    }

    /// Finds what is known of the whole board and of the board without the piece, unless it was
    /// found before. The keeper stands for the board. The board is one hive with the piece and
    /// without it, and no queen is surrounded on it.
    fn find<B: Board>(&mut self, board: &B, keeper: &CutKeeper, piece: Piece, side: Colour)
        requires known { IsKnown (B.stacks board.now) side self.old }
        requires may { MayAsk (B.stacks board.now) keeper.now }
        requires lift { MayLift (B.stacks board.now) piece }
        ensures known { IsSomeAnd self.new.whole (IsFound (B.stacks board.now) side) }
        ensures asked { IsSomeAnd self.new.asked (λ a. (a.0 ≡ piece)
            × IsFound (without (B.stacks board.now) piece) side a.1) }
        ensures reach { self.new.reach ≡ self.old.reach }
        ensures placing { self.new.placing ≡ self.old.placing }
    {
        find_whole(board, keeper, &mut self.whole, side);
        if let Some(whole) = self.whole.as_ref() {
            find_base(board, keeper, whole, &mut self.asked, piece, side);
        }
    }

    /// The value of the position after the move of the piece to the place, if it is known without a
    /// play. It is the value to that position's side to move, with no ply left to search. It is
    /// computed from what is known or found now about the board. The keeper stands for the board,
    /// on which no queen is surrounded.
    pub fn told_value<B: Board>(
        &mut self,
        board: &B,
        keeper: &CutKeeper,
        piece: Piece,
        place: Place,
        side: Colour,
    ) -> Option<i32>
        requires can { CanMake (B.stacks board.now) (To piece place) }
        requires known { IsKnown (B.stacks board.now) side self.old }
        requires may { MayAsk (B.stacks board.now) keeper.now }
        ensures known { IsKnown (B.stacks board.now) side self.new }
        ensures value { (p : Position) → p.board ≡ B.stacks board.now → other_side p.side ≡ side
            → IfSome result (λ v. v ≡ value (after p (To piece place)) 0) }
    {
        self.find(board, keeper, piece, side);
        match self.asked.as_ref() {
            Some((_, base)) => value_by(board, base, piece, place, side),
            None => None,
        }
    }

    /// A lower bound of that value, if one is known without a play. It is computed from what is
    /// known or found now about the board.
    pub fn told_least<B: Board>(
        &mut self,
        board: &B,
        keeper: &CutKeeper,
        piece: Piece,
        place: Place,
        side: Colour,
    ) -> Option<i32>
        requires can { CanMake (B.stacks board.now) (To piece place) }
        requires known { IsKnown (B.stacks board.now) side self.old }
        requires may { MayAsk (B.stacks board.now) keeper.now }
        ensures known { IsKnown (B.stacks board.now) side self.new }
        ensures least { (p : Position) → p.board ≡ B.stacks board.now → other_side p.side ≡ side
            → IfSome result (λ v. v ≤ℤ value (after p (To piece place)) 0) }
    {
        self.find(board, keeper, piece, side);
        match self.asked.as_ref() {
            Some((_, base)) => least_by(board, base, piece, place, side),
            None => None,
        }
    }

    /// An upper bound of what any placement is worth, by what is known or found now about the whole
    /// board. The keeper stands for the board, which is one hive, and no queen is surrounded on it.
    fn placing<B: Board>(&mut self, board: &B, keeper: &CutKeeper, side: Colour) -> Placing
        requires known { IsKnown (B.stacks board.now) side self.old }
        requires may { MayAsk (B.stacks board.now) keeper.now }
        requires one_hive { OneHive (B.stacks board.now) }
        ensures known { IsKnown (B.stacks board.now) side self.new }
        ensures placing { IsPlacing (B.stacks board.now) side result }
    {
        if let Some(placing) = self.placing {
            return placing;
        }
        find_whole(board, keeper, &mut self.whole, side);
        let placing = match self.whole.as_ref() {
            Some(whole) => placing_by(board, whole, side),
            None => Placing { most: None },
        };
        self.placing = Some(placing);
        placing
    }

    /// The reach of the piece, which is in hand or on top. For a piece in hand it is the bound of
    /// placements, if that is known. Otherwise it follows from what is known or found now about the
    /// board without the piece.
    fn find_reach<B: Board>(
        &mut self,
        board: &B,
        keeper: &CutKeeper,
        piece: Piece,
        side: Colour,
    ) -> Reach
        requires known { IsKnown (B.stacks board.now) side self.old }
        requires may { MayAsk (B.stacks board.now) keeper.now }
        requires lift { MayLift (B.stacks board.now) piece }
        ensures known { IsKnown (B.stacks board.now) side self.new }
        ensures piece { result.piece ≡ piece }
        ensures reach { IsReach (B.stacks board.now) side result }
    {
        if board.spot(piece).is_none() {
            let placing = self.placing(board, keeper, side);
            if placing.most.is_some() {
                return Reach {
                    piece,
                    most: placing.most,
                    afar: None,
                };
            }
        }
        self.find(board, keeper, piece, side);
        match self.asked.as_ref() {
            Some((_, base)) => reach_by(board, base, piece, side),
            None => Reach {
                piece,
                most: None,
                afar: None,
            },
        }
    }

    /// The stored reach of the piece, if it was asked for last.
    fn known_reach(&self, piece: Piece) -> Option<Reach>
        ensures { IfSome result (λ r. (r.piece ≡ piece) × (self.now.reach ≡ Some r)) }
    {
        let known = self.reach.as_ref()?;
        if known.piece == piece {
            Some(known.again())
        } else {
            None
        }
    }

    /// The reach of the piece, which is in hand or on top. It is the stored one if the piece was
    /// asked for last. Otherwise it is found now.
    pub fn reach_of<B: Board>(
        &mut self,
        board: &B,
        keeper: &CutKeeper,
        piece: Piece,
        side: Colour,
    ) -> Reach
        requires known { IsKnown (B.stacks board.now) side self.old }
        requires may { MayAsk (B.stacks board.now) keeper.now }
        requires lift { MayLift (B.stacks board.now) piece }
        ensures known { IsKnown (B.stacks board.now) side self.new }
        ensures piece { result.piece ≡ piece }
        ensures reach { IsReach (B.stacks board.now) side result }
    {
        if let Some(known) = self.known_reach(piece) {
            return known;
        }
        let found = self.find_reach(board, keeper, piece, side);
        self.reach = Some(found.again());
        found
    }
}
