//! What an audit finds wrong with an engine.
use hive_model::{LineText, Move};

/// What is wrong with a reply.
#[derive(Clone, Copy, Debug, PartialEq, Eq)]
pub enum Fault {
    /// A legal move is not on the list.
    Missing,
    /// A move on the list is not legal.
    Extra,
    /// A move is on the list twice.
    Twice,
    /// A part of the list is not a move of the position, or a reply has more than 65,536 bytes.
    Unreadable,
    /// The reply is not the game string of the game.
    NotTheGame,
    /// A move that is not legal was not refused.
    Accepted,
    /// The engine's output has ended within a reply.
    Ended,
    /// A read failed, and there is a limit on the wait for an answer.
    Late,
    /// A read failed, and there is no limit on the wait for an answer; or a write failed.
    Broke,
}

/// What is wrong, and the text that shows it. The text is the missing move as it is written, or the
/// part of the list as the engine wrote it. If the reply is not the game string, it is `asked`, the
/// line that was asked, `answered` and the reply. If a reply is missing, it is `asked` and the line
/// that was to be answered. It is empty if there is none.
#[derive(Drop)]
pub struct Finding {
    pub fault: Fault,
    pub text: LineText,
}

/// The judgement of one part of a list.
#[derive(Drop)]
pub enum Judged {
    /// It is wrong.
    Wrong(Finding),
    /// The part is this move, and the list goes on.
    Next(Move),
}
