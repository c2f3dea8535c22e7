//! A hook that is called before each game of a cup.

/// A hook that is called before each game. It cannot influence the cup: it is handed no job, and it
/// returns.
pub trait CupGate {
    /// The game at this place, counted from 0, is about to begin.
    fn before_game(&self, game: u32);
}

/// A gate that does nothing.
pub struct FreeCupGate;

impl CupGate for FreeCupGate {
    fn before_game(&self, game: u32) {
        let _ = game;
    }
}
