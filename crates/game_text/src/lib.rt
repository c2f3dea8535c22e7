//! Game strings, read and written.
#![tactic(auto)]

mod faults;
mod laws;
mod parsed;
mod parts;
mod playing;
mod reading;
mod seen;
mod texts;
mod turns;
mod writing;

pub use faults::GameFault;
pub use laws::{
    lines_are_one_game, lines_are_one_game_under, lines_are_read, lines_are_read_under,
    strings_are_games, strings_are_games_under,
};
pub use parsed::Parsed;
pub use playing::played;
pub use reading::{read_game, read_game_under};
pub use seen::Seen;
pub use texts::MoveTexts;
pub use writing::{seen_under, texts_of, write_game, write_game_under};
