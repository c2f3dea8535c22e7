//! Why an input is not one game.
ghost use Rattle.std.specs.Prelude.{◌≡◌};
ghost use Rattle.command_runs.specs.declared.no_game.NoGame.TheVariants.{Memory};

use hive_model::ReplyText;
use std::alloc::AllocError;

/// Why the input is not one line, a game that is not over.
#[derive(Drop)]
pub enum NoGame {
    /// The input is something else. This is the line that says what, with its LF.
    Bad(ReplyText),
    /// A read of the input failed.
    ReadFault,
    /// The input has 1,099,511,627,776 bytes or more before its end.
    InputFull,
    /// There was not enough memory.
    Memory,
}

impl From<AllocError> for NoGame {
    ghost from_gives = { λ _ e. e ≡ Memory };

    fn from(_error: AllocError) -> NoGame {
        NoGame::Memory
    }
}
