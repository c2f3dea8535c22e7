//! Which moves cannot raise alpha with no ply left after them, by what a game knows of them without
//! a play.

ghost use Rattle.std.specs.Prelude.{◌≡◌, ◌≤ℤ◌, IfSome, IsTrue, neg_ℤ};
ghost use Rattle.hive_model.specs.Histories.{position};
ghost use Rattle.hive_model.specs.Games.{after};
ghost use Rattle.hive_model.specs.Legal.{moves};
ghost use Rattle.hive_model.specs.Lists.{IsOn};
ghost use Rattle.hive_model.specs.Minimax.{reply_value, value};

use crate::game::BoardGame;
use crate::in_hand::is_plain_in_hand;
use hive_model::{Board, Game, GameBoard, Move};

/// Whether the move brings a piece other than a queen into play.
fn is_plain_placement<B: Board>(board: &B, m: &Move) -> bool {
    match m {
        Move::To { piece, .. } => is_plain_in_hand(board, *piece),
        Move::Pass => false,
    }
}

/// Whether a position is worth no more than alpha to the side that does not move in it. It is worth
/// at least `least` to its side to move.
fn is_refuted(least: i32, alpha: i32) -> bool
    ensures { IsTrue result → neg_ℤ least ≤ℤ alpha }
{
    i64::from(least) + i64::from(alpha) >= 0
}

impl<B: GameBoard> BoardGame<B> {
    /// A lower bound of what the position after a legal move is worth to its side to move, if one
    /// is known without a play. For a placement the exact worth is tried first, which is computed
    /// once for each place.
    fn told_least(&mut self, m: Move) -> Option<i32>
        requires { IsOn (moves (position self.old.history)) m }
        ensures least { IfSome result (λ b. b ≤ℤ value (after (position self.old.history) m) 0) }
        ensures same { self.new.history ≡ self.old.history }
        ensures count { self.new.count ≡ self.old.count }
    {
        if is_plain_placement(self, &m) {
            if let Some(worth) = self.value_after(m.again()) {
                return Some(worth);
            }
        }
        self.least_after(m)
    }

    /// Whether a legal move is known without a play to be worth no more than alpha to the side that
    /// makes it.
    pub(crate) fn is_told_futile(&mut self, m: Move, alpha: i32) -> bool
        requires { IsOn (moves (position self.old.history)) m }
        ensures futile { IsTrue result → reply_value (position self.old.history) 0 m ≤ℤ alpha }
        ensures same { self.new.history ≡ self.old.history }
        ensures count { self.new.count ≡ self.old.count }
    {
        match self.told_least(m) {
            Some(least) => is_refuted(least, alpha),
            None => false,
        }
    }
}
