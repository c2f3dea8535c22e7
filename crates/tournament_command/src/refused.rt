//! Why a line is not taken.
ghost use Rattle.std.specs.Prelude.{◌≡◌};
ghost use Rattle.tournament_command.specs.declared.refused.Refused.TheVariants.{Memory};

use std::alloc::AllocError;
use tournament_record::Topic;

/// What is wrong with a line.
#[derive(Clone, Copy)]
pub(crate) enum LineFault {
    /// The line with this number, from 1 on, is not what it is to be.
    Bad { number: u64 },
    /// The line with this number is to be the head, and tells something else of this.
    Other { number: u64, topic: Topic },
}

/// Why a line is not taken.
#[derive(Drop)]
pub(crate) enum Refused {
    /// There is something wrong with it.
    Line(LineFault),
    /// There was not enough memory.
    Memory,
}

impl From<AllocError> for Refused {
    ghost from_gives = { λ _ e. e ≡ Memory };

    fn from(_error: AllocError) -> Refused {
        Refused::Memory
    }
}
