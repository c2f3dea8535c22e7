//! A game in progress, however its board is stored.

ghost use Rattle.std.specs.Prelude.{
  ◌≡◌,
  ◌↔◌,
  ℕ,
  ◌+◌,
  ◌-◌,
  ◌^◌,
  ◌<◌,
  ◌≤◌,
  ◌≤ℤ◌,
  [],
  length,
  min,
  slice_get,
  Some,
  IfOk,
  IfSome,
  OnOk,
  OnErr,
  IsTrue,
};
ghost use Rattle.hive_model.specs.declared.places.Move.{Move as AnyMove};
ghost use Rattle.hive_model.specs.Lists.{IsOn};
ghost use Rattle.hive_model.specs.Positions.{IsSound};
ghost use Rattle.hive_model.specs.Legal.{moves};
ghost use Rattle.hive_model.specs.Legal as rules;
ghost use Rattle.hive_model.specs.Games.{IsGame, after};
ghost use Rattle.hive_model.specs.Histories.{
  History,
  position,
  with_move,
  without_last,
  is_listed,
  most_plies,
};
ghost use Rattle.hive_model.specs.Stack.{level_of, with_level};
ghost use Rattle.hive_model.specs.Evaluation.{eval};
ghost use Rattle.hive_model.specs.Minimax.{value, reply_value};
ghost use Rattle.hive_model.specs.Keys.{key};

use crate::boards::Board;
use crate::key::Key;
use crate::move_stack::MoveStack;
use crate::pieces::{Colour, GameType};
use crate::places::{Move, State};
use std::alloc::{AllocError, Global};

/// A game in progress. Contracts see its history: its type, the legal moves made so far, and the
/// number of further plies that it has room for. Its position is the replay of those moves. As a
/// `Board` it is the board of that position. Contracts also see the counter that `played` returns,
/// which only `play` raises.
pub trait Game: Board + Sized {
    ghost history: { Self → History };

    /// How often `play` was called. The counter stops at the greatest u64.
    ghost played: { Self → ℕ };

    /// A game of this type, before the first ply.
    fn opening(alloc: Global, game_type: GameType) -> Result<Self, AllocError>
        ensures kind { IfOk result (λ g. (history g).game_type ≡ game_type) }
        ensures empty { IfOk result (λ g. (history g).made ≡ []) }
        ensures unplayed { IfOk result (λ g. played g ≡ 0) };

    /// Makes room for at least this many more plies, and keeps the room that there is. Nothing else
    /// changes. If memory runs out, nothing changes at all.
    fn reserve(&mut self, plies: u32) -> Result<(), AllocError>
        requires { length (history self.old).made + plies ≤ most_plies }
        ensures room { OnOk result (plies ≤ (history self.new).spare) }
        ensures kept { (history self.old).spare ≤ (history self.new).spare }
        ensures same { history self.new ≡ record {
          game_type = (history self.old).game_type;
          made = (history self.old).made;
          spare = (history self.new).spare;
        } }
        ensures err { OnErr result (history self.new ≡ history self.old) }
        ensures count { played self.new ≡ played self.old };

    /// The game type.
    fn game_type(&self) -> GameType
        ensures { result ≡ (history self.now).game_type };

    /// The number of plies played, at most 5,064.
    fn plies(&self) -> u32
        ensures plies { result ≡ length (history self.now).made }
        ensures few { result ≤ most_plies };

    /// The move of a ply, counted from 0.
    fn move_at(&self, i: u32) -> Move
        requires { i < length (history self.now).made }
        ensures { slice_get (history self.now).made i ≡ Some result };

    /// Whether the game goes on, or how it ended. The moves are a game, and the position is sound.
    fn state(&self) -> State
        ensures state { result ≡ rules.state (position (history self.now)) }
        ensures game { IsGame (history self.now).game_type (history self.now).made }
        ensures sound { IsSound (position (history self.now)) };

    /// Establishes that the moves are a game and that the position is sound. Computes nothing.
    fn lemma_sound(&self)
        ensures game { IsGame (history self.now).game_type (history self.now).made }
        ensures sound { IsSound (position (history self.now)) };

    /// The side to move.
    fn side(&self) -> Colour
        ensures { result ≡ (position (history self.now)).side };

    /// The turn number, from 1. It rises after black's move.
    fn turn(&self) -> u32
        ensures { result ≡ (position (history self.now)).turn };

    /// Begins a level of the stack and fills it with the legal moves, in order. The game does not
    /// change.
    fn list(&mut self, out: &mut MoveStack)
        requires { 1 ≤ out.old.free }
        ensures listed { out.new ≡ with_level out.old (moves (position (history self.old))) }
        ensures same { history self.new ≡ history self.old }
        ensures count { played self.new ≡ played self.old };

    /// The number of legal moves. The game does not change.
    fn count_moves(&mut self) -> u32
        ensures counted { result ≡ length (moves (position (history self.old))) }
        ensures same { history self.new ≡ history self.old }
        ensures count { played self.new ≡ played self.old };

    /// Whether the move is legal. The game does not change.
    fn is_legal(&mut self, m: Move) -> bool
        ensures legal { IsTrue result ↔ IsOn (moves (position (history self.old))) m }
        ensures test { result ≡ is_listed (position (history self.old)) m }
        ensures same { history self.new ≡ history self.old }
        ensures count { played self.new ≡ played self.old };

    /// Makes a legal move.
    fn play(&mut self, m: Move)
        requires legal { IsOn (moves (position (history self.old))) m }
        requires room { 1 ≤ (history self.old).spare }
        ensures moved { history self.new ≡ with_move (history self.old) m }
        ensures count { played self.new ≡ min (played self.old + 1) (2 ^ 64 - 1) };

    /// Undoes the last move.
    fn undo(&mut self)
        requires { 1 ≤ length (history self.old).made }
        ensures back { history self.new ≡ without_last (history self.old) }
        ensures count { played self.new ≡ played self.old };

    /// The evaluation of the position for its side to move, without a search. Its absolute value is
    /// at most 1,000. The game does not change.
    fn evaluate(&mut self) -> i32
        ensures worth { result ≡ eval (position (history self.old)) }
        ensures same { history self.new ≡ history self.old }
        ensures count { played self.new ≡ played self.old };

    /// The value at depth 0 of the position after a legal move, for the side to move there. None if
    /// it is not known without a play. The game does not change.
    fn value_after(&mut self, m: Move) -> Option<i32>
        requires { IsOn (moves (position (history self.old))) m }
        ensures value { IfSome result (λ v. v
            ≡ value (after (position (history self.old)) m) 0) }
        ensures same { history self.new ≡ history self.old }
        ensures count { played self.new ≡ played self.old };

    /// A lower bound on the value at depth 0 of the position after a legal move, for the side to
    /// move there. None if no bound is known without a play. The game does not change.
    fn least_after(&mut self, m: Move) -> Option<i32>
        requires { IsOn (moves (position (history self.old))) m }
        ensures least { IfSome result (λ b. b
            ≤ℤ value (after (position (history self.old)) m) 0) }
        ensures same { history self.new ≡ history self.old }
        ensures count { played self.new ≡ played self.old };

    /// An upper bound on the value of a legal move for the side that makes it, with one ply
    /// searched after it. None if no bound is known without a play. The game does not change.
    fn most_after(&mut self, m: Move) -> Option<i32>
        requires { IsOn (moves (position (history self.old))) m }
        ensures most { IfSome result (λ b. reply_value (position (history self.old)) 1 m ≤ℤ b) }
        ensures same { history self.new ≡ history self.old }
        ensures count { played self.new ≡ played self.old };

    /// The index of the next move of the level, at `from` or later, that may raise alpha when no
    /// ply is searched after it. It is the length of the level if no move may. Each move that is
    /// passed over is worth at most alpha to the side that makes it. The level must hold the legal
    /// moves. The game does not change.
    fn next_candidate(&mut self, stack: &MoveStack, level: u32, from: u32, alpha: i32) -> u32
        requires stands { level < length stack.now.lists }
        requires listed { level_of stack.now level ≡ moves (position (history self.old)) }
        requires from { from ≤ length (moves (position (history self.old))) }
        ensures later { from ≤ result }
        ensures within { result ≤ length (moves (position (history self.old))) }
        ensures futile { (i : ℕ) (m : AnyMove) → from ≤ i → i < result
            → slice_get (moves (position (history self.old))) i ≡ Some m
            → reply_value (position (history self.old)) 0 m ≤ℤ alpha }
        ensures same { history self.new ≡ history self.old }
        ensures count { played self.new ≡ played self.old };

    /// The key of the position. The position is sound.
    fn key(&self) -> Key
        ensures key { result ≡ key (position (history self.now)) }
        ensures sound { IsSound (position (history self.now)) };

    /// How often `play` was called.
    fn played(&self) -> u64
        ensures { result ≡ played self.now };

    /// The board of a game is the board of its position.
    ghost on_board: { (g : Self) → Self.Board.stacks g ≡ (position (history g)).board };
}
