//! A sum of openings.
ghost use Rattle.std.specs.Prelude.{◌≡◌, IfOk};
ghost use Rattle.std.specs.List.{All};
ghost use Rattle.tournament_record.specs.Openings.{IsOpening, opening_line, openings_sum};

use game_text::{played, write_game};
use hive_model::{Game, GameType, Move, MoveList, ReplyText};
use sha2::{Digest, Sha256};
use std::alloc::{AllocError, Global};

/// The line of an opening, as `replay` writes it.
fn opening_line<G: Game + Drop>(
    alloc: Global,
    game_type: GameType,
    moves: &[Move],
) -> Result<ReplyText, AllocError>
    requires opening { IsOpening game_type moves.now }
    ensures { IfOk result (λ text. text ≡ opening_line game_type moves.now) }
{
    let game: G = played(alloc, game_type, moves, 0)?;
    let mut text = ReplyText::new(alloc);
    write_game(alloc, &game, &mut text)?;
    text.push(b'\n')?;
    Ok(text)
}

/// The SHA-256 digest of the lines of openings, each as `replay` writes it. The only error is want
/// of memory.
pub fn openings_sum<G: Game + Drop>(
    alloc: Global,
    game_type: GameType,
    openings: &[MoveList],
) -> Result<[u8; 32], AllocError>
    requires each { All (IsOpening game_type) openings.now }
    ensures { IfOk result (λ sum. sum ≡ openings_sum game_type openings.now) }
{
    let mut hasher = Sha256::new();
    for place in 0..openings.len() {
        let text = opening_line::<G>(alloc, game_type, openings[place].items())?;
        hasher.update(text.items());
    }
    Ok(hasher.finalize())
}
