//! The child with which a worker begins. Any choice is correct; a good one raises the bound early,
//! for all workers.

ghost use Rattle.std.specs.Prelude.{◌≡◌, ◌≢◌, ℕ, ◌%◌, ◌<◌, [], ◌∷◌, length, MatchOption};
ghost use Rattle.hive_model.specs.Legal.{moves};
ghost use Rattle.hive_model.specs.Histories.{position};

use hive_model::{Game, MoveStack};

/// The first child of this part with the greatest value, among those whose value the game knows
/// without a play. The game does not change, and nothing is played.
fn best_told<G: Game>(game: &mut G, root: &MoveStack, part: u32, parts: u32) -> Option<u32>
    requires listed { root.now.lists ≡ moves (position (G.history game.old)) ∷ [] }
    requires parts { 0 < parts }
    ensures same { G.history game.new ≡ G.history game.old }
    ensures count { G.played game.new ≡ G.played game.old }
{
    let mut least = i32::MAX;
    let mut best = None;
    for child in 0..root.level_len(0) {
        if child % parts != part {
            continue;
        }
        let Some(worth) = game.value_after(root.get(0, child)) else {
            continue;
        };
        if worth < least {
            least = worth;
            best = Some(child);
        }
    }
    best
}

/// The child of this part with which a worker begins. It is the one that looks best if the game
/// knows a value, and otherwise the first. None if the part has no child. The game does not change,
/// and nothing is played.
pub(crate) fn first_child<G: Game>(
    game: &mut G,
    root: &MoveStack,
    part: u32,
    parts: u32,
) -> Option<u32>
    requires listed { root.now.lists ≡ moves (position (G.history game.old)) ∷ [] }
    requires parts { 0 < parts }
    ensures own { let count = length (moves (position (G.history game.old))) in
        MatchOption result ((i : ℕ) → i < count → i % parts ≢ part)
        (λ i. (i < count) × (i % parts ≡ part)) }
    ensures same { G.history game.new ≡ G.history game.old }
    ensures count { G.played game.new ≡ G.played game.old }
{
    let count = root.level_len(0);
    if let Some(child) = best_told(game, root, part, parts) {
        if child < count && child % parts == part {
            return Some(child);
        }
    }
    if part < parts && part < count {
        return Some(part);
    }
    None
}

/// Whether the child with which a worker begins is the one that looks best of all children. The
/// game does not change, and nothing is played.
pub(crate) fn is_ahead<G: Game>(game: &mut G, root: &MoveStack, parts: u32, first: u32) -> bool
    requires { root.now.lists ≡ moves (position (G.history game.old)) ∷ [] }
    ensures same { G.history game.new ≡ G.history game.old }
    ensures count { G.played game.new ≡ G.played game.old }
{
    parts == 1 || first_child(game, root, 0, 1) == Some(first)
}
