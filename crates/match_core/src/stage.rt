//! The stages of a match, the acts that they call for, and the events that can happen.
use hive_model::{Colour, Move};

/// What has to be done.
#[derive(Clone, Copy, Debug, PartialEq, Eq)]
pub enum Act {
    /// Send the line to this side.
    Send { side: Colour },
    /// Read a line of this side.
    Read { side: Colour },
    /// Read the clock.
    Clock,
    /// Nothing: the match is over.
    Finish,
}

/// The result of an act.
#[derive(Clone, Copy, Debug, PartialEq, Eq)]
pub enum Event {
    /// The line was sent whole.
    Sent,
    /// A line was read.
    Line,
    /// A line was read that is too long.
    TooLong,
    /// No line is left.
    Ended,
    /// A read or a write failed.
    Broke,
    /// The clock read this, in milliseconds.
    Reading { at: u64 },
}

/// What an engine is sent; a greeting comes unasked.
#[derive(Clone, Copy, Debug, PartialEq, Eq)]
pub enum Task {
    Greet,
    Begin,
    Ask,
    Tell { told: Move },
}

/// The stage that a match has reached.
#[derive(Clone, Copy, Debug, PartialEq, Eq)]
pub enum Stage {
    /// The line of a task has to be sent to a side.
    Send { task: Task, side: Colour },
    /// The reply of a side has to be read.
    Read { task: Task, side: Colour },
    /// The clock has to be read before a question.
    Before,
    /// The clock has to be read after the reply.
    After,
    Finished,
}
