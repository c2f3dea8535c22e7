//! The walk of a whole certificate.

ghost use Rattle.std.specs.Prelude.{◌≡◌, ◌-◌, ◌<◌, ◌≤◌, length, slice_get, Some, None};
ghost use Rattle.hive_model.specs.Legal.{moves};
ghost use Rattle.hive_model.specs.Games.{after};
ghost use Rattle.hive_model.specs.Histories.{position};
ghost use Rattle.hive_model.specs.Stack.{level_of};
ghost use Rattle.certificate_walks.specs.Claims.{HasReplies, IsClaimOf, IsTrueOf};
ghost use Rattle.certificate_walks.specs.Walks.{place_of, walk};
ghost use Rattle.certificate_walks.specs.Walks as walks;
ghost use Rattle.certificate_walks.specs.Follows.{Follows};
ghost use Rattle.certificate_walks.specs.Parts.{IsPart, IsPartIf, LeadsToEnd, ending_of};

use crate::claim::Claim;
use crate::limit::Limit;
use crate::walker::{Walked, Walker};
use crate::walking::{walk_child, walk_moves};
use hive_model::{Game, Move, MoveStack};

/// The place of a move in a level, counted from 0, or `None` if it is not there.
pub fn find_move(level: u32, m: Move, stack: &MoveStack) -> Option<u32>
    requires { level < length stack.now.lists }
    ensures { result ≡ place_of m (level_of stack.now level) }
{
    let count = stack.level_len(level);
    for i in 0..count {
        if m == stack.get(level, i) {
            return Some(i);
        }
    }
    None
}

/// Walks the claim of each move of the level. The move at `place` is claimed to be the best.
fn walk_root<G: Game, W: Walker>(
    game: &mut G,
    level: u32,
    place: u32,
    claim: &Claim,
    walker: &mut W,
    stack: &mut MoveStack,
) -> Walked<W::Stop>
    requires claim { IsClaimOf (G.history game.old) claim.now.depth claim.now.value }
    requires replies { HasReplies (claim.now.depth - 1) level (G.history game.old) stack.old }
    requires place { slice_get (moves (position (G.history game.old))) place ≡ Some claim.now.best }
    ensures shown { W.is_true walker.old → result ≡ Walked.Done
        → IsTrueOf (position (G.history game.old)) claim.now }
    ensures told { Follows W.sight
        (walks.walk_moves
        (λ m. walk W.rules (after (position (G.history game.old)) m) (claim.now.depth - 1))
        (moves (position (G.history game.old))) place claim.now.best claim.now.value)
        (W.seen walker.old) (ending_of W.rules W.ending result) (W.seen walker.new) }
    ensures part { IsPart W.parts result walker.old walker.new }
    ensures game { G.history game.new ≡ G.history game.old }
    ensures stack { stack.new ≡ stack.old }
{
    let depth = claim.depth - 1;
    let less = Limit::AtLeast(1 - claim.value);
    let most = Limit::AtMost(-claim.value);
    let least = Limit::AtLeast(-claim.value);
    let count = stack.level_len(level);
    let before = walk_moves(game, level, 0, place, depth, less, walker, stack);
    if !before.is_done() {
        return before;
    }
    let high = walk_child(game, claim.best, depth, most, walker, stack);
    if !high.is_done() {
        return high;
    }
    let low = walk_child(game, claim.best, depth, least, walker, stack);
    if !low.is_done() {
        return low;
    }
    walk_moves(game, level, place + 1, count, depth, least, walker, stack)
}

/// Walks a certificate, but does not test whether anything is left over. It shows that the claimed
/// move is best at the claimed depth, 1 to 64, and has the claimed value. It answers `None` if that
/// move is not legal. The game is not over. The game has room for `depth` more plies, and the stack
/// for `depth` more levels. Game and stack are as before.
pub fn walk_certificate<G: Game, W: Walker>(
    game: &mut G,
    claim: &Claim,
    walker: &mut W,
    stack: &mut MoveStack,
) -> Option<Walked<W::Stop>>
    requires claim { IsClaimOf (G.history game.old) claim.now.depth claim.now.value }
    requires room { claim.now.depth ≤ stack.old.free }
    ensures shown { W.is_true walker.old → result ≡ Some Walked.Done
        → IsTrueOf (position (G.history game.old)) claim.now }
    ensures told { LeadsToEnd W.rules W.sight W.ending (position (G.history game.old))
        claim.now.depth claim.now.best claim.now.value result
        (W.seen walker.old) (W.seen walker.new) }
    ensures illegal { place_of claim.now.best (moves (position (G.history game.old))) ≡ None
        → result ≡ None }
    ensures legal { result ≡ None
        → place_of claim.now.best (moves (position (G.history game.old))) ≡ None }
    ensures part { IsPartIf W.parts result walker.old walker.new }
    ensures game { G.history game.new ≡ G.history game.old }
    ensures stack { stack.new ≡ stack.old }
{
    let level = stack.levels();
    game.list(stack);
    let Some(place) = find_move(level, claim.best, stack) else {
        stack.drop_level();
        return None;
    };
    let walked = walk_root(game, level, place, claim, walker, stack);
    stack.drop_level();
    Some(walked)
}
