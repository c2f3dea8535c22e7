//! Move texts, read and written, and the fields of game strings.
#![tactic(auto)]

mod faults;
mod fields;
mod laws;
mod moves;
mod progress;
mod spelling;

pub use faults::MoveFault;
pub use fields::{read_number, read_state, read_time, read_type, state_text, time_text, type_text};
pub use laws::texts_denote;
pub use moves::{read_move, write_move};
pub use spelling::piece_name;
