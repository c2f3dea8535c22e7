//! The plan of an audit, and the stages that it goes through.
use hive_model::{GameType, Move};

/// The plan of an audit.
#[derive(Clone, Copy, Debug, PartialEq, Eq)]
pub struct AuditPlan {
    /// The number of games.
    pub games: u64,
    /// The number of the first game among all games of the seed, counted from 1. The game with some
    /// number is the same whichever game is the first.
    pub first: u64,
    /// The seed from which the moves of the games are drawn. Those of a game are drawn from the
    /// seed plus the game's number less 1, modulo 2^64.
    pub seed: u64,
    /// The most plies of a game, from 1 to 1,000.
    pub plies: u32,
    /// The type of all games. If there is none, each of the eight types comes in turn, by the
    /// number of the game. Expansions that the engine does not name in its greeting are left out.
    pub game_type: Option<GameType>,
    /// The number of findings that ends the audit. Each earlier one only ends its game.
    pub most: u64,
    /// Whether there is a limit on the wait for an answer.
    pub patient: bool,
}

/// The stage that an audit has reached: which reply of the engine is read.
#[derive(Clone, Copy, Debug, PartialEq, Eq)]
pub enum Stage {
    /// The greeting, which the engine sends unasked.
    Greeting,
    /// The reply to `newgame`.
    Beginning,
    /// The reply to `validmoves`.
    Listing,
    /// The reply to this move, which is played.
    Playing { m: Move },
    /// The reply to `undo`, which takes this number of plies back, at least 1, at the end of a
    /// game.
    Undoing { plies: u32 },
    /// The reply to `validmoves` after it.
    Reviewing,
    /// The reply to this move, which is not legal.
    Trying { m: Move },
    /// The reply to `validmoves` after it.
    Relisting,
    /// The reply to `newgame` with the game string of the whole game.
    Loading,
    /// The reply to `validmoves` after it.
    Finishing,
    /// No reply: the audit is over.
    Over,
}
