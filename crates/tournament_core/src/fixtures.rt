//! The games of a tournament, and how they end.

ghost use Rattle.std.specs.Prelude.{◌≡◌};
ghost use Rattle.tournament_core.specs.Ends.{player};

use hive_model::Colour;

/// A game of a tournament: the number of its opening, counted from 0, and the numbers of the
/// engines that play white and black, counted from 1.
#[derive(Clone, Copy, Debug, PartialEq, Eq)]
pub struct Fixture {
    pub opening: u32,
    pub white: u32,
    pub black: u32,
}

impl Fixture {
    /// The number of the engine that plays a side.
    pub fn player(&self, side: Colour) -> u32
        ensures { result ≡ player self.now side }
    {
        match side {
            Colour::White => self.white,
            Colour::Black => self.black,
        }
    }
}

/// How a game ended: the side that won, if one did, and whether the other side forfeited. A forfeit
/// has a winner, the side that did not forfeit.
#[derive(Clone, Copy, Debug, PartialEq, Eq)]
pub struct GameEnd {
    pub winner: Option<Colour>,
    pub forfeited: bool,
}
