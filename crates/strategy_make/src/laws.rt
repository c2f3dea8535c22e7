//! Laws of the certificates that are written, as contracts of functions that do nothing.

ghost use Rattle.strategy_make.specs.Laws.{LeastIndicesHold, HeadsAreRead, IndicesAreRead};

/// The least indices show that the best move is best, and its value.
pub fn least_indices_hold()
    ensures { LeastIndicesHold }
{}

/// A certificate is read back from its lines as it was written: its head, and the indices after it.
pub fn certificates_are_read()
    ensures heads { HeadsAreRead }
    ensures indices { IndicesAreRead }
{}
