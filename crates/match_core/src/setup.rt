//! The setup of a match.
use hive_model::GameType;

/// How the engines are asked.
#[derive(Clone, Copy, Debug, PartialEq, Eq)]
pub enum Level {
    /// To this depth, from 1 to 64.
    Depth { depth: u32 },
    /// With this time: whole seconds given in milliseconds, at most 99 hours, 59 minutes and 59
    /// seconds. An answer is late if more than the time and the margin have passed between the two
    /// readings of the clock. The margin is in milliseconds, at most an hour.
    Time { budget: u64, margin: u64 },
}

/// The setup of a match.
#[derive(Clone, Copy, Debug, PartialEq, Eq)]
pub struct Setup {
    pub game_type: GameType,
    pub level: Level,
    /// The most plies, from 1 to 1,000.
    pub limit: u32,
    /// Whether a position that occurs for the third time draws the game.
    pub repetition: bool,
}
