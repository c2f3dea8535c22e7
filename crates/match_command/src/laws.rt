//! Laws of the definitions, as contracts of functions that do nothing.
ghost use Rattle.match_command.specs.Laws.{MatchesAreDone};

/// The law covers a match of two programs in which the sink counted no failed write and the starter
/// no failed start. The match ends with `Done`, or because memory ran out.
pub fn matches_are_done()
    ensures { MatchesAreDone }
{}
