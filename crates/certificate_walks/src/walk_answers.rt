//! The answers of walks over items.

ghost use Rattle.std.specs.Prelude.{◌≡◌};
ghost use Rattle.certificate_walks.specs.Taking.{of_walk};

use crate::walker::Walked;

/// Why a walk ended without a result.
#[derive(Clone, Copy, Debug, PartialEq, Eq)]
pub enum Halt {
    /// A bad item is in the place of one that the walk takes.
    Bad,
    /// The items could not be read.
    Failed,
    /// No more may be read.
    Full,
}

/// How a part of a walk over items ended.
#[derive(Clone, Copy, Debug, PartialEq, Eq)]
pub enum WalkAnswer<W> {
    /// It showed everything that it had to show.
    Done,
    /// It met this fault, which is the first.
    Refuses(W),
    /// The items ended it.
    Halts(Halt),
}

/// Why a walk over items was ended.
#[derive(Clone, Copy, Debug, PartialEq, Eq)]
pub enum Stop<W> {
    /// This fault, which is the first.
    Refuses(W),
    /// The items ended it.
    Halts(Halt),
}

/// The answer of a check.
#[derive(Clone, Copy, Debug, PartialEq, Eq)]
pub enum Checked<W> {
    /// The claim is true, and nothing is left over.
    Accepted,
    /// The first fault, and how many items were taken before it, capped at the greatest `u64`. An
    /// index or citation that is at fault counts as taken.
    Refused { place: u64, why: W },
    /// What the items answered last.
    Halted { answer: Halt },
}

/// How a part of a walk ended. `leaf_fails` is the fault of a leaf that does not meet its claim.
/// `bad_index` is that of a place not below the number of moves.
pub fn walk_answer<W: Copy>(walked: Walked<Stop<W>>, leaf_fails: W, bad_index: W) -> WalkAnswer<W>
    ensures { result ≡ of_walk leaf_fails bad_index walked }
{
    match walked {
        Walked::Done => WalkAnswer::Done,
        Walked::LeafFails => WalkAnswer::Refuses(leaf_fails),
        Walked::BadIndex => WalkAnswer::Refuses(bad_index),
        Walked::Stops(Stop::Refuses(why)) => WalkAnswer::Refuses(why),
        Walked::Stops(Stop::Halts(halt)) => WalkAnswer::Halts(halt),
    }
}
