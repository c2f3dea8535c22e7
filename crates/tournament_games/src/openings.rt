//! Openings of tournament games.
ghost use Rattle.std.specs.Prelude.{◌≡◌, IfOk};
ghost use Rattle.tournament_record.specs.Openings.{IsOpening};

use hive_model::{Game, MoveList};
use std::alloc::{AllocError, Global};

/// The moves of an unfinished game, as an opening. The only error is running out of memory.
pub fn opening_of<G: Game>(alloc: Global, game: &G) -> Result<MoveList, AllocError>
    ensures moves { IfOk result (λ moves. moves ≡ (G.history game.now).made) }
    ensures valid { IfOk result (λ moves. IsOpening (G.history game.now).game_type moves) }
{
    game.lemma_sound();
    let mut moves = MoveList::new(alloc);
    for place in 0..game.plies() {
        moves.push(game.move_at(place))?;
    }
    Ok(moves)
}
