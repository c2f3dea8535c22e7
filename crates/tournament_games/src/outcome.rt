//! The outcome of a game.
use hive_model::ReplyText;
use tournament_core::GameEnd;

/// The outcome of a game that was played: its two lines, and how it ended.
#[derive(Drop)]
pub(crate) struct ToldGame {
    pub text: ReplyText,
    pub ended: GameEnd,
}
