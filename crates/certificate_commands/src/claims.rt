//! The claim that a head makes.

ghost use Rattle.std.specs.Prelude.{IfErr, IfOk};
ghost use Rattle.certificate_text.specs.Heads.{IsHead};
ghost use Rattle.certificate_commands.specs.Claims.{Claims, NoClaim};

use certificate_text::Head;
use certificate_verdicts::{TextVerdict, Unread};
use command_runs::is_over;
use game_text::played;
use hive_model::Game;
use move_text::read_move;
use std::alloc::Global;
use strategy_check::{Claim, Why};

/// A game that is not over, and the claim about its position.
#[derive(Drop)]
pub(crate) struct ClaimedGame<G> {
    pub(crate) game: G,
    pub(crate) claim: Claim,
}

/// The game of a head, and the claim of the head about it.
///
/// # Errors
///
/// What is judged of the text by its head alone: that its game is over, or that the text of its
/// move denotes none. Or memory runs out.
pub(crate) fn claimed<G: Game + Drop>(
    alloc: Global,
    head: &Head,
) -> Result<ClaimedGame<G>, Result<TextVerdict, Unread>>
    requires { IsHead 2 head.now }
    ensures claims { IfOk result (λ c. Claims head.now (G.history c.game) c.claim) }
    ensures none { IfErr result (NoClaim head.now) }
{
    let Ok(game) = played::<G>(alloc, head.game_type, head.moves.items(), head.depth) else {
        return Err(Err(Unread::Memory));
    };
    if is_over(&game) {
        return Err(Ok(TextVerdict::GameOver));
    }
    game.lemma_sound();
    match read_move(head.game_type, &game, head.claim_text.items()) {
        Ok(best) => {
            let claim = Claim {
                depth: head.depth,
                best,
                value: head.value,
            };
            Ok(ClaimedGame { game, claim })
        }
        Err(_) => Err(Ok(TextVerdict::Refused {
            place: 0,
            why: Why::NoSuchMove,
        })),
    }
}
