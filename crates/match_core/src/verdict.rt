//! How a match ends, and why a side forfeits.
use hive_model::{Colour, LineText, State};

/// Why a side forfeits.
#[derive(Drop)]
pub enum Cause {
    /// The first line of its reply is no move in its position. It is empty if no line came before
    /// `ok`.
    NotAMove { line: LineText },
    /// The first line of its reply is a move that is not legal.
    Illegal { line: LineText },
    /// It reported an error: a line that is `err` or `invalidmove`, or begins with one of them and
    /// a space.
    ErrLine { line: LineText },
    /// It sent this number of lines in one reply, and none of them was `ok`. The number is 1,001,
    /// which is one too many.
    Flood { lines: u32 },
    /// It sent a line of more than 65,536 bytes.
    LongLine,
    /// Its output ended within a reply.
    Ended,
    /// A read or a write failed.
    Broke,
    /// It was asked at the first reading of the clock, and its answer had come only at the second,
    /// which is too late.
    Late { asked: u64, answered: u64 },
}

/// How a match ended.
#[derive(Drop)]
pub enum Verdict {
    /// The game is over by the rules.
    Rules { state: State },
    /// The game has as many plies as it may have.
    Limit,
    /// A side forfeits for this cause.
    Forfeit { side: Colour, cause: Cause },
}
