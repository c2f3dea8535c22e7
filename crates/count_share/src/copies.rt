//! Another game at the position of a game.

ghost use Rattle.std.specs.Prelude.{◌≡◌, ◌+◌, ◌≤◌, IfOk, length};
ghost use Rattle.hive_model.specs.Histories.{position, most_plies};

use game_text::played;
use hive_model::Game;
use std::alloc::{AllocError, Global};

/// A game of the same moves, with room for this many more plies.
pub(crate) fn same_game<G: Game + Drop>(alloc: Global, game: &G, room: u32) -> Result<G, AllocError>
    requires { length (G.history game.now).made + room ≤ most_plies }
    ensures position { IfOk result (λ g. position (G.history g) ≡ position (G.history game.now)) }
    ensures room { IfOk result (λ g. room ≤ (G.history g).spare) }
{
    game.lemma_sound();
    let mut moves = Vec::new(alloc);
    for i in 0..game.plies() {
        moves.push(game.move_at(i))?;
    }
    played(alloc, game.game_type(), moves.as_slice(), room)
}
