//! What is known of a position without its moves, and what the table keeps of it.

ghost use Rattle.std.specs.Prelude.{
  ◌≡◌,
  ◌≤◌,
  ◌≤ℤ◌,
  ℤ,
  int_le,
  is_some,
  negsuc,
  IsSomeAnd,
  IsTrue,
  MatchOption,
  IfSome,
};
ghost use Rattle.hive_model.specs.Keys.{key as key_of_position};
ghost use Rattle.hive_model.specs.Positions.{Position, IsSound};
ghost use Rattle.hive_model.specs.Minimax.{value, IsInner};
ghost use Rattle.hive_model.specs.Evaluation.{eval};
ghost use Rattle.hive_model.specs.Histories.{position};
ghost use Rattle.value_table.specs.Truth.{stands};

use hive_model::{Game, Key, Move};
use search_laws::end_value;
use value_table::{Bound, Entry, Known, ValueTable};

/// No evaluation is larger than this in size.
pub(crate) const GREATEST_EVALUATION: i32 = 1_000;

/// Whether a position at which no move is tried is worth at least `least`: the game is over, or no
/// ply is left to search. It answers `None` if the game goes on and a ply is left. The position is
/// evaluated only if its state alone does not decide. The game is as before.
pub(crate) fn leaf_reaches<G: Game>(game: &mut G, depth: u32, least: i32) -> Option<bool>
    requires deep { depth ≤ 64 }
    ensures leaf { MatchOption result (IsInner (position (G.history game.old)) depth)
        (λ b. b ≡ int_le least (value (position (G.history game.old)) depth)) }
    ensures sound { IsSound (position (G.history game.old)) }
    ensures game { G.history game.new ≡ G.history game.old }
{
    if let Some(worth) = end_value(game.state(), game.side(), depth) {
        return Some(least <= worth);
    }
    if depth == 0 {
        return Some(evaluation_reaches(game, least));
    }
    None
}

/// Whether the evaluation of a position is at least `least`.
fn evaluation_reaches<G: Game>(game: &mut G, least: i32) -> bool
    ensures reached { result ≡ int_le least (eval (position (G.history game.old))) }
    ensures game { G.history game.new ≡ G.history game.old }
{
    if least > GREATEST_EVALUATION {
        return false;
    }
    if least <= -GREATEST_EVALUATION {
        return true;
    }
    least <= game.evaluate()
}

/// What an entry says, if anything, on whether a position of its key is worth at least `least`.
pub(crate) fn told_by(entry: &Option<Known>, least: i32) -> Option<bool>
    ensures { IfSome result (λ b. IsSomeAnd entry.now
        (λ e. (v : ℤ) → IsTrue (stands e.bound v e.value) → b ≡ int_le least v)) }
{
    let entry = entry.as_ref()?;
    let value = entry.value();
    let reaches = least <= value;
    match entry.bound() {
        Bound::Exact => Some(reaches),
        Bound::AtLeast if reaches => Some(true),
        Bound::AtMost if !reaches => Some(false),
        _ => None,
    }
}

/// Keeps what was found of a sound position with this key: whether it is worth at least `least`,
/// and the move that decided it.
pub(crate) fn keep_answer(
    table: &mut ValueTable,
    key: &Key,
    depth: u32,
    least: i32,
    reply: Option<Move>,
)
    requires low { negsuc 1000200 ≤ℤ least }
    requires found { (p : Position) × IsSound p × (key_of_position p ≡ key.now)
        × (is_some reply ≡ int_le least (value p depth)) }
{
    if reply.is_some() {
        table.keep(Entry::new(*key, depth, Bound::AtLeast, least, reply));
    } else {
        table.keep(Entry::new(*key, depth, Bound::AtMost, least - 1, None));
    }
}
