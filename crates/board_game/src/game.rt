//! The game on a board.

ghost use Rattle.std.specs.Prelude.{◌≡◌, ◌≤ℤ◌, IsTrue, refl};
ghost use Rattle.hive_model.specs.Histories.{position};
ghost use Rattle.hive_model.specs.Legal.{moves};
ghost use Rattle.hive_model.specs.Lists.{IsOn};
ghost use Rattle.hive_model.specs.Minimax.{reply_value};

use crate::before::Before;
use crate::evaluation::worth_after;
use crate::in_hand::{Placements, is_plain_in_hand, note, noted};
use crate::keys::key_after;
use crate::listing::{count_after, is_legal_after, list_moves, state_of};
use crate::lookahead::Lookahead;
use crate::moves_made::{make, unmake};
use crate::reach::is_out_of_reach;
use crate::refuting::{reply_behind, turn_behind};
use crate::turns::{side_after, turn_after};
use cut_keeper::CutKeeper;
use hive_model::{
    Board, Colour, Game, GameBoard, GameType, Key, Move, MoveStack, Piece, Place, Spot, State,
};
use quiet_reply::most_worth;
use std::alloc::{AllocError, Global};
use std::marker::Model;

/// A game on a board.
///
/// - To take a move back, it keeps the origin of each ply's piece, and what it knew before that
///   ply. The piece that rests is that of the last move.
/// - The keeper of the cut places stands for the board between any two calls. So a question needs
///   no walk.
/// - It stores what was found about the board, and about the board without the piece that was asked
///   for last.
/// - It stores the known values of placements, and the last quiet place that was found.
#[derive(Drop)]
pub struct BoardGame<B: GameBoard> {
    game_type: GameType,
    board: B,
    made: Vec<Move>,
    from: Vec<Option<Place>>,
    keeper: CutKeeper,
    before: Vec<Before>,
    ahead: Lookahead,
    placements: Placements,
    quiet: Option<Place>,
    spare: u32,
    count: u64,
}

impl<B: GameBoard> Model for BoardGame<B> {
    ghost use Rattle.std.specs.Prelude.{◌≡◌, ◌≤◌, ◌+◌, vec_capacity, vec_len};
    ghost use Rattle.hive_model.specs.Positions.{opening};
    ghost use Rattle.board_game.specs.Replayed.{PlayedHistory, IsReplayed};
    ghost use Rattle.cut_keeper.specs.Keeping.{Keeps};
    ghost use Rattle.board_game.specs.Kept.{AreKept};
    ghost use Rattle.board_game.specs.Asked.{IsKnown};
    ghost use Rattle.board_game.specs.InHand.{ArePlaced};
    ghost use Rattle.hive_model.specs.Pieces.{other_side};
    ghost use Rattle.rule_laws.specs.Soundness.{side_after};
    ghost use Rattle.hive_model.specs.Histories.{most_plies};

    ghost Value = { PlayedHistory };

    ghost view = { λ g. record {
      history = record { game_type = g.game_type; made = g.made.items; spare = g.spare };
      count = g.count;
    } };

    ghost invariant = { λ g. IsReplayed g.game_type (B.stacks g.board) g.made.items g.from.items
        × (vec_len g.made + g.spare ≤ most_plies)
        × (vec_len g.from ≡ vec_len g.made)
        × (vec_len g.made + g.spare ≤ vec_capacity g.made)
        × (vec_len g.made + g.spare ≤ vec_capacity g.from)
        × Keeps (B.stacks g.board) g.keeper
        × AreKept (opening g.game_type) g.made.items g.before.items
        × (vec_len g.before ≡ vec_len g.made)
        × (vec_len g.made + g.spare ≤ vec_capacity g.before)
        × IsKnown (B.stacks g.board) (other_side (side_after (vec_len g.made))) g.ahead
        × ArePlaced (B.stacks g.board) (other_side (side_after (vec_len g.made)))
        g.placements.items };
}

impl<B: GameBoard> Board for BoardGame<B> {
    ghost use Rattle.hive_model.specs.Histories.{position};

    ghost stacks = { λ g. (position g.history).board };

    fn top(&self, place: Place) -> Option<Piece> {
        self.board.top(place)
    }

    fn height(&self, place: Place) -> u8 {
        self.board.height(place)
    }

    fn spot(&self, piece: Piece) -> Option<Spot> {
        self.board.spot(piece)
    }

    fn lemma_board(&self) {
        self.board.lemma_board();
    }

    fn under(&self, piece: Piece) -> Option<Piece> {
        self.board.under(piece)
    }

    fn neighbours(&self, place: Place) -> u8 {
        self.board.neighbours(place)
    }
}

impl<B: GameBoard> BoardGame<B> {
    /// Whether a legal move is known, by the reach of its piece, to be worth no more than alpha to
    /// the side that makes it. No ply is left after it.
    fn is_out_of_reach(&mut self, m: &Move, alpha: i32) -> bool
        requires { IsOn (moves (position self.old.history)) m.now }
        ensures futile { IsTrue result → reply_value (position self.old.history) 0 m.now ≤ℤ alpha }
        ensures same { self.new.history ≡ self.old.history }
        ensures count { self.new.count ≡ self.old.count }
    {
        let Move::To { piece, place } = m else {
            return false;
        };
        let side = side_after(self.made.len() as u32).other();
        let reach = self.ahead.reach_of(&self.board, &self.keeper, *piece, side);
        is_out_of_reach(&reach, &self.board, *place, side, alpha)
    }

    /// Whether a legal move is known to be worth no more than alpha to the side that makes it. No
    /// ply is left after it. The reach of its piece is tried first, then what is known of the move
    /// without a play.
    fn is_futile(&mut self, m: Move, alpha: i32) -> bool
        requires { IsOn (moves (position self.old.history)) m }
        ensures futile { IsTrue result → reply_value (position self.old.history) 0 m ≤ℤ alpha }
        ensures same { self.new.history ≡ self.old.history }
        ensures count { self.new.count ≡ self.old.count }
    {
        if self.is_out_of_reach(&m, alpha) {
            return true;
        }
        self.is_told_futile(m, alpha)
    }
}

impl<B: GameBoard> Game for BoardGame<B> {
    ghost history = { λ g. g.history };

    ghost played = { λ g. g.count };

    fn opening(alloc: Global, game_type: GameType) -> Result<Self, AllocError> {
        Ok(BoardGame {
            game_type,
            board: B::empty(alloc)?,
            made: Vec::new(alloc),
            from: Vec::new(alloc),
            keeper: CutKeeper::new(),
            before: Vec::new(alloc),
            ahead: Lookahead::new(),
            placements: Placements::new(),
            quiet: None,
            spare: 0,
            count: 0,
        })
    }

    fn reserve(&mut self, plies: u32) -> Result<(), AllocError> {
        self.made.reserve(plies as usize)?;
        self.from.reserve(plies as usize)?;
        self.before.reserve(plies as usize)?;
        if self.spare < plies {
            self.spare = plies;
        }
        Ok(())
    }

    fn game_type(&self) -> GameType {
        self.game_type
    }

    fn plies(&self) -> u32 {
        self.made.len() as u32
    }

    fn move_at(&self, i: u32) -> Move {
        self.made[i as usize]
    }

    fn state(&self) -> State {
        state_of(&self.board, self.game_type, &self.made)
    }

    fn lemma_sound(&self) {
        let _game_type = self.game_type;
    }

    fn side(&self) -> Colour {
        side_after(self.made.len() as u32)
    }

    fn turn(&self) -> u32 {
        turn_after(self.made.len() as u32)
    }

    fn list(&mut self, out: &mut MoveStack) {
        list_moves(&self.board, &self.keeper, self.game_type, &self.made, out);
    }

    fn count_moves(&mut self) -> u32 {
        count_after(&self.board, &self.keeper, self.game_type, &self.made)
    }

    fn is_legal(&mut self, m: Move) -> bool {
        is_legal_after(&self.board, &self.keeper, self.game_type, &self.made, m)
    }

    fn play(&mut self, m: Move) {
        let keeper = self.keeper.again();
        let ahead = self.ahead.take();
        self.placements.clear();
        let from = make(&mut self.board, &mut self.keeper, &m);
        let _ = self.made.push(m);
        let _ = self.from.push(from);
        let _ = self.before.push(Before { keeper, ahead });
        self.spare -= 1;
        self.count = self.count.saturating_add(1);
    }

    fn undo(&mut self) {
        let Some(before) = self.before.pop() else {
            unreachable!();
        };
        if let Some(m) = self.made.pop() {
            let from = self.from.pop().flatten();
            unmake(&mut self.board, &m, from);
            self.keeper = before.keeper;
            self.ahead = before.ahead;
            self.placements.clear();
            self.spare += 1;
        }
    }

    fn evaluate(&mut self) -> i32 {
        worth_after(&self.board, &self.keeper, &self.made)
    }

    fn value_after(&mut self, m: Move) -> Option<i32> {
        let Move::To { piece, place } = m else {
            return None;
        };
        let is_plain = is_plain_in_hand(&self.board, piece);
        if is_plain {
            if let Some(known) = noted(self.placements.as_slice(), place) {
                return known.told;
            }
        }
        let side = side_after(self.made.len() as u32).other();
        let told = self
            .ahead
            .told_value(&self.board, &self.keeper, piece, place, side);
        if is_plain {
            note(&mut self.placements, place, told);
        }
        told
    }

    fn least_after(&mut self, m: Move) -> Option<i32> {
        let Move::To { piece, place } = m else {
            return None;
        };
        let side = side_after(self.made.len() as u32).other();
        self.ahead
            .told_least(&self.board, &self.keeper, piece, place, side)
    }

    fn most_after(&mut self, m: Move) -> Option<i32> {
        let turn = turn_behind(self.game_type, &self.made, &m);
        let quiet = reply_behind(&mut self.board, &m, &turn, self.quiet)?;
        self.quiet = Some(quiet);
        let least = self.least_after(m)?;
        most_worth(&turn, least)
    }

    fn next_candidate(&mut self, stack: &MoveStack, level: u32, from: u32, alpha: i32) -> u32 {
        let end = stack.level_len(level);
        for at in from..end {
            if !self.is_futile(stack.get(level, at), alpha) {
                return at;
            }
        }
        end
    }

    fn key(&self) -> Key {
        key_after(&self.board, self.game_type, &self.made)
    }

    fn played(&self) -> u64 {
        self.count
    }

    ghost on_board = { λ g. refl };
}
