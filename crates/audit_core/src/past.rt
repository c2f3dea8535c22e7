//! The first plies of a game.
ghost use Rattle.std.specs.Prelude.{◌≡◌, ◌+◌, ◌≤◌, ℕ, length, take, IfOk};
ghost use Rattle.hive_model.specs.Histories.{most_plies};

use hive_model::Game;
use std::alloc::{AllocError, Global};

/// The greater of the two numbers.
fn most(plies: u32, room: u32) -> u32
    ensures plies { plies ≤ result }
    ensures room { room ≤ result }
    ensures least { (a : ℕ) → plies ≤ a → room ≤ a → result ≤ a }
{
    if plies < room { room } else { plies }
}

/// A game of the same kind with this number of first plies of this one, and with room for `room`
/// plies in all.
pub(crate) fn first_plies<G: Game + Drop>(
    alloc: Global,
    game: &G,
    plies: u32,
    room: u32,
) -> Result<G, AllocError>
    requires made { plies ≤ length (G.history game.now).made }
    requires room { room ≤ most_plies }
    ensures kind { IfOk result (λ g. (G.history g).game_type ≡ (G.history game.now).game_type) }
    ensures made { IfOk result (λ g. (G.history g).made ≡ take plies (G.history game.now).made) }
    ensures spare { IfOk result (λ g. room ≤ length (G.history g).made + (G.history g).spare) }
{
    game.lemma_sound();
    let _all = game.plies();
    let reserved = most(plies, room);
    let mut past = G::opening(alloc, game.game_type())?;
    past.reserve(reserved)?;
    for i in 0..plies {
        past.play(game.move_at(i));
    }
    Ok(past)
}
