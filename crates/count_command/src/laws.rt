//! When the run of a count is done, as the contract of a function that does nothing.

ghost use Rattle.count_command.specs.Laws.{CountsAreDone};

/// The law covers a count whose input is exactly one line, a game string of a game that is not
/// over. If neither the source nor the sink counted a fault, the run ends with `Done`, or because
/// memory ran out.
pub fn counts_are_done()
    ensures { CountsAreDone }
{}
