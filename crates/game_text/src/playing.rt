//! Games that are played from lists of moves.
ghost use Rattle.std.specs.Prelude.{◌≡◌, ◌+◌, ◌≤◌, [], length, IfOk};
ghost use Rattle.hive_model.specs.Games.{IsGame};
ghost use Rattle.hive_model.specs.Histories.{most_plies};

use hive_model::{Game, GameType, Move};
use std::alloc::{AllocError, Global};

/// The game of this type before its first ply, with room for this many plies.
pub(crate) fn unplayed<G: Game + Drop>(
    alloc: Global,
    game_type: GameType,
    plies: u32,
) -> Result<G, AllocError>
    requires { plies ≤ most_plies }
    ensures kind { IfOk result (λ g. (G.history g).game_type ≡ game_type) }
    ensures fresh { IfOk result (λ g. (G.history g).made ≡ []) }
    ensures room { IfOk result (λ g. plies ≤ (G.history g).spare) }
{
    let mut game = G::opening(alloc, game_type)?;
    game.reserve(plies)?;
    Ok(game)
}

/// The game of this type after these moves, with room for this many more plies. A game has room for
/// 5,064 plies in all.
pub fn played<G: Game + Drop>(
    alloc: Global,
    game_type: GameType,
    moves: &[Move],
    room: u32,
) -> Result<G, AllocError>
    requires game { IsGame game_type moves.now }
    requires few { length moves.now + room ≤ most_plies }
    ensures kind { IfOk result (λ g. (G.history g).game_type ≡ game_type) }
    ensures made { IfOk result (λ g. (G.history g).made ≡ moves.now) }
    ensures room { IfOk result (λ g. room ≤ (G.history g).spare) }
{
    let mut game = unplayed::<G>(alloc, game_type, moves.len() as u32 + room)?;
    for m in moves {
        game.play(m.again());
    }
    Ok(game)
}
