//! A session and a replay. Each answers the lines of its input, one after another, and writes the
//! reply to each before it reads the next line.
#![tactic(auto)]

mod laws;
mod replay_lines;
mod replays;
mod service;
mod sessions;

pub use laws::{replays_answer_each_line, replays_are_done, sessions_are_done};
pub use replays::serve_replay;
pub use sessions::serve_session;
