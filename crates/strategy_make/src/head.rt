//! The five lines of a certificate's head.

ghost use Rattle.std.specs.Prelude.{◌≡◌, IfOk};
ghost use Rattle.hive_model.specs.Lists.{IsOn};
ghost use Rattle.hive_model.specs.Legal.{moves};
ghost use Rattle.hive_model.specs.Games.{IsGame};
ghost use Rattle.hive_model.specs.Histories.{position};
ghost use Rattle.certificate_text.specs.Text.{head_text};

use certificate_text::write_head;
use certificate_walks::Claim;
use hive_model::{Best, Game, ReplyText};
use std::alloc::{AllocError, Global};

/// The version of the certificates that are made.
const VERSION: u32 = 1;

/// The head of a certificate. It claims that a legal move is the best one of a game at a depth, and
/// states its value.
pub(crate) fn head_of<G: Game + Drop>(
    alloc: Global,
    game: &G,
    depth: u32,
    best: &Best,
) -> Result<ReplyText, AllocError>
    requires { IsOn (moves (position (G.history game.now))) best.now.best }
    ensures head { IfOk result (λ t. t ≡ head_text 1
        (G.history game.now).game_type
        (G.history game.now).made depth best.now.best best.now.value) }
    ensures game { IfOk result (λ t. IsGame (G.history game.now).game_type
        (G.history game.now).made) }
{
    let claim = Claim {
        depth,
        best: best.best,
        value: best.value,
    };
    write_head(alloc, game, VERSION, &claim)
}
