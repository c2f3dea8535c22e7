//! The walk of a whole certificate that writes its tokens.

ghost use Rattle.std.specs.Prelude.{◌≡◌, ◌≤◌, ℕ, List, [], Option, Some, None, IfSome};
ghost use Rattle.hive_model.specs.Legal.{moves};
ghost use Rattle.hive_model.specs.Histories.{position};
ghost use Rattle.certificate_walks.specs.Claims.{IsClaimOf, IsTrueOf};
ghost use Rattle.certificate_walks.specs.Walks.{place_of};
ghost use Rattle.certificate_walks.specs.Ends.{ChecksItems, EndsUnread};
ghost use Rattle.strategy_lemmas.specs.Short.{shortened};
ghost use Rattle.strategy_check.specs.Checks.{index_faults};
ghost use Rattle.certificate_citing.specs.Migrating.{ShortAnswers};

use crate::draft::Draft;
use crate::shortening::{ShortWalk, short_of};
use certificate_walks::{Checked, Claim, Items, answer_of, walk_certificate};
use hive_model::{Game, MoveStack};
use strategy_check::Why;

/// Checks a certificate as its indices come, and writes its tokens into the draft, which is empty.
/// It answers `None` if memory ran out. Game and stack are as before.
pub fn shorten_certificate<G: Game, I: Items<Item = u32>>(
    game: &mut G,
    claim: &Claim,
    indices: &mut I,
    draft: &mut Draft,
    stack: &mut MoveStack,
) -> Option<Checked<Why>>
    requires claim { IsClaimOf (G.history game.old) claim.now.depth claim.now.value }
    requires room { claim.now.depth ≤ stack.old.free }
    requires empty { draft.old ≡ record { taken = 0; lemmas = []; text = [] } }
    ensures accepted { result ≡ Some Checked.Accepted
        → IsTrueOf (position (G.history game.old)) claim.now }
    ensures told { (items : List (Option ℕ)) → (I.supply indices.old).left ≡ Some items
        → ShortAnswers (shortened (position (G.history game.old))
        claim.now.depth claim.now.best claim.now.value items) result draft.new }
    ensures illegal { place_of claim.now.best (moves (position (G.history game.old))) ≡ None
        → result ≡ Some (Checked.Refused 0 Why.NoSuchMove) }
    ensures legal { (place : ℕ) → result ≡ Some (Checked.Refused place Why.NoSuchMove)
        → place_of claim.now.best (moves (position (G.history game.old))) ≡ None }
    ensures items { ChecksItems index_faults
        (shortened (position (G.history game.old))
        claim.now.depth claim.now.best claim.now.value) result
        (I.supply indices.old) (I.supply indices.new) }
    ensures unread { IfSome result (λ checked. EndsUnread index_faults
        (shortened (position (G.history game.old))
        claim.now.depth claim.now.best claim.now.value) checked
        (I.supply indices.old) (I.supply indices.new)) }
    ensures game { G.history game.new ≡ G.history game.old }
    ensures stack { stack.new ≡ stack.old }
{
    let mut walker = ShortWalk::new(indices, draft);
    let Some(walked) = walk_certificate(game, claim, &mut walker, stack) else {
        return Some(Checked::Refused {
            place: 0,
            why: Why::NoSuchMove,
        });
    };
    let walked = short_of(walked)?;
    Some(answer_of(walked, draft.taken, indices))
}
