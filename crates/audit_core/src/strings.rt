//! Whether a reply is the game string of a game.
ghost use Rattle.std.specs.Prelude.{◌≡◌, ◌≤◌, length, IfOk, Ok};
ghost use Rattle.std.specs.Str.{bytes_eq};
ghost use Rattle.hive_model.specs.Fields.{type_bytes};
ghost use Rattle.hive_model.specs.Histories.{position};
ghost use Rattle.io_edge.specs.Lines.{greatest_line};
ghost use Rattle.game_text.specs.Reading.{game_of};
ghost use Rattle.audit_core.specs.Judging.{same_type, is_game, wrong_string};

use crate::findings::{Fault, Finding};
use crate::lists::{moves_made, same_moves};
use crate::texts::answered_text;
use game_text::{GameFault, Parsed, read_game};
use hive_model::{Game, GameType, Move};
use move_text::type_text;
use std::alloc::{AllocError, Global};

/// Whether two types have the same name.
fn same_type(game_type: GameType, other: GameType) -> bool
    ensures { result ≡ same_type game_type other }
{
    type_text(game_type).as_bytes() == type_text(other).as_bytes()
}

/// Whether a line is this type alone.
fn is_type(line: &[u8], game_type: GameType) -> bool
    ensures { result ≡ bytes_eq line.now (type_bytes game_type) }
{
    line == type_text(game_type).as_bytes()
}

/// Whether a line that was read is this game.
fn is_read(parsed: &Parsed, game_type: GameType, made: &[Move]) -> bool
    ensures { result ≡ is_game game_type made.now (Ok parsed.now) }
{
    same_type(parsed.game_type, game_type) && same_moves(parsed.moves.items(), made)
}

/// Whether a line is a written form of the game.
fn is_game<G: Game + Drop>(alloc: Global, game: &G, line: &[u8]) -> Result<bool, AllocError>
    requires { length line.now ≤ greatest_line }
    ensures { let now = G.history game.now in
        IfOk result (λ b. b ≡ is_game now.game_type now.made (game_of line.now)) }
{
    match read_game::<G>(alloc, line) {
        Ok(parsed) => {
            let made = moves_made(alloc, game)?;
            Ok(is_read(&parsed, game.game_type(), made.items()))
        }
        Err(GameFault::Memory) => Err(AllocError),
        Err(_) => Ok(false),
    }
}

/// What is wrong with a line as the game string of a game, in reply to what was asked.
pub(crate) fn wrong_string<G: Game + Drop>(
    alloc: Global,
    game: &G,
    asked: &[u8],
    line: &[u8],
) -> Result<Option<Finding>, AllocError>
    requires { length line.now ≤ greatest_line }
    ensures { let now = G.history game.now in
        IfOk result (λ o. o ≡ wrong_string now.game_type now.made asked.now line.now) }
{
    if is_game(alloc, game, line)? && !is_type(line, game.game_type()) {
        return Ok(None);
    }
    let text = answered_text(alloc, asked, line)?;
    Ok(Some(Finding {
        fault: Fault::NotTheGame,
        text,
    }))
}
