//! The counts of a position's legal moves.

ghost use Rattle.std.specs.Prelude.{
  ◌≡◌,
  ◌+◌,
  ◌-◌,
  ◌^◌,
  ◌<◌,
  ◌≤◌,
  [],
  ◌∷◌,
  ◌++◌,
  length,
  false,
  IfOk,
};
ghost use Rattle.std.specs.Prelude.{Some, List};
ghost use Rattle.hive_model.specs.Positions.{Position};
ghost use Rattle.hive_model.specs.Legal.{is_over};
ghost use Rattle.hive_model.specs.Histories.{position};
ghost use Rattle.hive_model.specs.Stack.{level_of};
ghost use Rattle.opening_book.specs.Book.{BookGame, IsTally, IsBook};
ghost use Rattle.opening_book.specs.Plies.{IsMost};

use crate::plies::count_plies;
use hive_model::{Game, Key, Move, MoveStack};
use std::alloc::{AllocError, Global};
use std::marker::Model;

/// How often each legal move of a position was made in the games that were added. Its memory does
/// not grow with the games.
#[derive(Drop)]
pub struct MoveTally {
    key: Key,
    moves: Vec<Move>,
    counts: Vec<u64>,
    plies: u64,
}

impl Model for MoveTally {
    ghost use Rattle.opening_book.specs.Book.{Counts, IsKept};

    ghost Value = { Counts };

    ghost view = { λ t.
        record { key = t.key; moves = t.moves.items; counts = t.counts.items; plies = t.plies } };

    ghost invariant = { λ t. IsKept t.moves.items t.counts.items t.plies };
}

impl MoveTally {
    /// The counts for the game's position over no games. The game is not over. The stack needs room
    /// for one level. Game and stack are as before. All memory is taken here.
    pub fn of<G: Game>(
        alloc: Global,
        game: &mut G,
        stack: &mut MoveStack,
    ) -> Result<MoveTally, AllocError>
        requires open { is_over (position (G.history game.old)) ≡ false }
        requires room { 1 ≤ stack.old.free }
        ensures tally { IfOk result (λ t. IsTally (position (G.history game.old)) [] t) }
        ensures game { G.history game.new ≡ G.history game.old }
        ensures stack { stack.new ≡ stack.old }
    {
        let key = game.key();
        let level = stack.levels();
        game.list(stack);
        let moves = listed(alloc, stack, level);
        stack.drop_level();
        let moves = moves?;
        let counts = Vec::from_elem(alloc, 0, moves.len())?;
        Ok(MoveTally {
            key,
            moves,
            counts,
            plies: 0,
        })
    }

    /// Adds the plies of a played game, finished or not, and takes it back to its opening. The
    /// caller ensures that fewer than 2 to the power 40 plies are then counted in all.
    pub fn add<G: Game>(&mut self, played: &mut G)
        requires { self.old.plies + length (G.history played.old).made < 2 ^ 40 }
        ensures added { (p : Position) (games : List BookGame) → IsTally p games self.old
            → IsTally p (games ++ record {
              game_type = (G.history played.old).game_type;
              made = (G.history played.old).made;
            } ∷ [])
            self.new }
        ensures plies { self.new.plies ≡ self.old.plies + length (G.history played.old).made }
        ensures game_type { (G.history played.new).game_type ≡ (G.history played.old).game_type }
        ensures opening { (G.history played.new).made ≡ [] }
    {
        let plies = played.plies();
        count_plies(
            &self.key,
            self.moves.as_slice(),
            self.counts.as_mut_slice(),
            played,
        );
        self.plies += u64::from(plies);
    }

    /// How many plies of played games were counted.
    pub fn plies(&self) -> u64
        ensures { result ≡ self.now.plies }
    {
        self.plies
    }

    /// The first of the legal moves that were made most often, and how often; `None` if none was
    /// ever made.
    pub fn best(&self) -> Option<(Move, u64)>
        ensures { (p : Position) (games : List BookGame) → IsTally p games self.now
            → IsBook p games result }
    {
        let (place, most) = most_made(self.counts.as_slice());
        if most == 0 {
            return None;
        }
        Some((self.moves[place].again(), most))
    }
}

/// The moves of a level.
fn listed(alloc: Global, stack: &MoveStack, level: u32) -> Result<Vec<Move>, AllocError>
    requires { level < length stack.now.lists }
    ensures { IfOk result (λ moves. moves.items ≡ level_of stack.now level) }
{
    let mut moves = Vec::new(alloc);
    for i in 0..stack.level_len(level) {
        moves.push(stack.get(level, i))?;
    }
    Ok(moves)
}

/// The first place of the greatest count, and that count, which is 0 if every count is 0.
fn most_made(counts: &[u64]) -> (usize, u64)
    ensures { IsMost counts.now (length counts.now) result.0 result.1 }
{
    let mut place = 0;
    let mut most = 0;
    for i in 0..counts.len() {
        if counts[i] > most {
            place = i;
            most = counts[i];
        }
    }
    (place, most)
}
