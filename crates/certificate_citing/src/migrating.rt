//! Makes a certificate into one that cites.

ghost use Rattle.std.specs.Prelude.{
  ◌≡◌,
  ◌≤◌,
  ◌⊎◌,
  ◌++◌,
  ℕ,
  List,
  Option,
  Some,
  None,
  false,
  IfSome,
};
ghost use Rattle.io_edge.specs.Outside.{HasCause};
ghost use Rattle.hive_model.specs.Legal.{moves};
ghost use Rattle.hive_model.specs.Histories.{position};
ghost use Rattle.certificate_walks.specs.Claims.{IsClaimOf, IsTrueOf};
ghost use Rattle.certificate_walks.specs.Walks.{place_of};
ghost use Rattle.certificate_walks.specs.Ends.{ChecksItems, EndsUnread};
ghost use Rattle.strategy_check.specs.Checks.{index_faults};
ghost use Rattle.strategy_check.specs.Trace.{checked};
ghost use Rattle.certificate_indices.specs.Writing.{Wrote};
ghost use Rattle.certificate_citing.specs.Migrating.{MigrateAnswers, WritesLate, answered};

use crate::certificate::shorten_certificate;
use crate::draft::Draft;
use certificate_walks::{Checked, Claim, Halt, Items};
use hive_model::{Game, MoveStack};
use io_edge::{Sink, write_all};
use std::alloc::Global;
use strategy_check::Why;

/// The answer of a call that makes a certificate into one that cites.
#[derive(Clone, Copy, Debug, PartialEq, Eq)]
pub enum Migrated {
    /// The claim is true, nothing is left over, and everything was written.
    Done,
    /// The first fault, and how many indices were taken before it, capped at the greatest `u64`. A
    /// bad index counts as taken. Nothing was written.
    Refused { place: u64, why: Why },
    /// What the indices answered last. Nothing was written.
    Halted { answer: Halt },
    /// A write failed: the sink's count of failed writes rose.
    WriteFault,
    /// Memory ran out. Nothing was written.
    Memory,
}

/// Writes a head and then lines.
fn write_both<K: Sink>(head: &[u8], lines: &[u8], sink: &mut K) -> bool
    ensures wrote { Wrote result (head.now ++ lines.now) (K.written sink.old) (K.written sink.new) }
    ensures cause { HasCause (result ≡ false)
        (K.write_faults sink.old) (K.write_faults sink.new) }
{
    if !write_all(sink, head) {
        return false;
    }
    write_all(sink, lines)
}

/// Makes a certificate into one that cites. It first reads all indices. They have to show that the
/// claimed move is best at the claimed depth, 1 to 64, and has the claimed value. If they do not,
/// or one is left over, it writes nothing. Otherwise it writes the head, and after it the tokens,
/// one a line. They cite whenever a lemma that was shown serves. All memory is taken before the
/// first write. The game is not over. The game has room for `depth` more plies, and the stack for
/// `depth` more levels. Game and stack are as before, whatever the answer.
pub fn migrate<G: Game, I: Items<Item = u32>, K: Sink>(
    alloc: Global,
    game: &mut G,
    claim: &Claim,
    indices: &mut I,
    head: &[u8],
    stack: &mut MoveStack,
    sink: &mut K,
) -> Migrated
    requires claim { IsClaimOf (G.history game.old) claim.now.depth claim.now.value }
    requires room { claim.now.depth ≤ stack.old.free }
    ensures accepted { result ≡ Migrated.Done
        → IsTrueOf (position (G.history game.old)) claim.now }
    ensures told { (items : List (Option ℕ)) → (I.supply indices.old).left ≡ Some items
        → MigrateAnswers (position (G.history game.old))
        claim.now.depth claim.now.best claim.now.value items head.now result
        (K.written sink.old) (K.written sink.new) }
    ensures late { WritesLate result (K.written sink.old) (K.written sink.new) }
    ensures illegal { place_of claim.now.best (moves (position (G.history game.old))) ≡ None
        → (result ≡ Migrated.Refused 0 Why.NoSuchMove) ⊎ (result ≡ Migrated.Memory) }
    ensures legal { (place : ℕ) → result ≡ Migrated.Refused place Why.NoSuchMove
        → place_of claim.now.best (moves (position (G.history game.old))) ≡ None }
    ensures items { ChecksItems index_faults
        (checked (position (G.history game.old))
        claim.now.depth claim.now.best claim.now.value) (answered result)
        (I.supply indices.old) (I.supply indices.new) }
    ensures unread { IfSome (answered result) (λ answer. EndsUnread index_faults
        (checked (position (G.history game.old))
        claim.now.depth claim.now.best claim.now.value) answer
        (I.supply indices.old) (I.supply indices.new)) }
    ensures writes { HasCause (result ≡ Migrated.WriteFault)
        (K.write_faults sink.old) (K.write_faults sink.new) }
    ensures game { G.history game.new ≡ G.history game.old }
    ensures stack { stack.new ≡ stack.old }
{
    let Ok(mut draft) = Draft::new(alloc) else {
        return Migrated::Memory;
    };
    let Some(checked) = shorten_certificate(game, claim, indices, &mut draft, stack) else {
        return Migrated::Memory;
    };
    match checked {
        Checked::Accepted => {
            if write_both(head, draft.text.items(), sink) {
                return Migrated::Done;
            }
            Migrated::WriteFault
        }
        Checked::Refused { place, why } => Migrated::Refused { place, why },
        Checked::Halted { answer } => Migrated::Halted { answer },
    }
}
