//! The commands of the protocol.

use crate::span::Span;
use thiserror::Error;

/// A command with its arguments.
#[derive(Clone, Copy, Debug, PartialEq, Eq)]
pub enum Command {
    /// Report who the engine is.
    Info,
    /// Begin the game that the text describes. An empty text is the game without expansions.
    NewGame { text: Span },
    /// Play the move that the text names.
    Play { text: Span },
    /// Pass.
    Pass,
    /// List the legal moves.
    ValidMoves,
    /// Search to this depth, 1 to 64.
    BestDepth { depth: u32 },
    /// Search for this many milliseconds: whole seconds, less than a hundred hours.
    BestTime { budget: u64 },
    /// Undo this many plies, 1 to 999,999,999.
    Undo { plies: u32 },
    /// List the options.
    Options,
    /// Report the option of this name.
    OptionGet { name: Span },
    /// Set the option of this name to this value.
    OptionSet { name: Span, value: Span },
    /// End the session.
    Exit,
}

/// Why a line is not a command.
#[derive(Clone, Copy, Debug, PartialEq, Eq, Error)]
pub enum CommandFault {
    /// The first word is not a command, or the line is empty.
    #[error("the first word is no command")]
    Unknown,
    /// The first word is a command, but the rest does not have its form.
    #[error("the rest of the line is not of the form that the command takes")]
    Arguments,
}
