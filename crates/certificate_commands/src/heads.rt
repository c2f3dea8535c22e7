//! The five lines of the head of a certificate that cites.

ghost use Rattle.std.specs.Prelude.{◌≡◌, IfOk};
ghost use Rattle.hive_model.specs.Lists.{IsOn};
ghost use Rattle.hive_model.specs.Legal.{moves};
ghost use Rattle.hive_model.specs.Histories.{position};
ghost use Rattle.certificate_text.specs.Text.{head_text};

use certificate_text::write_head;
use hive_model::{Game, ReplyText};
use std::alloc::{AllocError, Global};
use strategy_check::Claim;

/// The version of certificates that cite.
const CITING: u32 = 2;

/// The head of the certificate of the second version for the claim that a legal move of the game is
/// the best one.
pub(crate) fn citing_head<G: Game + Drop>(
    alloc: Global,
    game: &G,
    claim: &Claim,
) -> Result<ReplyText, AllocError>
    requires { IsOn (moves (position (G.history game.now))) claim.now.best }
    ensures { IfOk result (λ t. t ≡ head_text 2
        (G.history game.now).game_type (G.history game.now).made
        claim.now.depth claim.now.best claim.now.value) }
{
    write_head(alloc, game, CITING, claim)
}
