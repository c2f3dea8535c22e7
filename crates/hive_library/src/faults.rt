//! Why a call gives no text.

ghost use Rattle.std.specs.Prelude.{◌≡◌};
ghost use Rattle.hive_library.specs.Games.{move_fault};
ghost use Rattle.hive_library.specs.Rooms.{code};

use move_text::MoveFault;

/// Why a call gives no text.
#[derive(Clone, Copy)]
pub enum Fault {
    /// The line is no game.
    NoGame,
    /// A number is out of its range.
    OutOfRange,
    /// Memory ran out.
    Memory,
    /// The text has 1,099,511,627,776 bytes or more.
    TooLong,
    /// The words are no move of the game's type.
    Unreadable,
    /// The piece that the words refer to is not in play.
    NotInPlay,
    /// The move is not legal.
    NotLegal,
    /// The game is over.
    GameOver,
    /// The game has 5,000 moves, so that no other may follow.
    FullGame,
}

impl Fault {
    /// The fault of a text that is no move on the board.
    pub fn of_move(fault: MoveFault) -> Fault
        ensures { result ≡ move_fault fault }
    {
        match fault {
            MoveFault::NotInPlay { .. } => Fault::NotInPlay,
            _ => Fault::Unreadable,
        }
    }

    /// The status that reports the fault.
    pub fn code(self) -> u32
        ensures { result ≡ code self }
    {
        match self {
            Fault::NoGame => 1,
            Fault::OutOfRange => 2,
            Fault::Memory => 7,
            Fault::TooLong => 8,
            Fault::Unreadable => 11,
            Fault::NotInPlay => 12,
            Fault::NotLegal => 13,
            Fault::GameOver => 14,
            Fault::FullGame => 15,
        }
    }
}
