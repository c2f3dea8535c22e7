//! Laws of the definitions, as contracts of functions that do nothing.
ghost use Rattle.cup_command.specs.Laws.{CupsAreDone};

/// The law covers a cup of programs in which the sink counted no failed write and the starter no
/// failed start. The cup ends with `Done`, or because memory ran out.
pub fn cups_are_done()
    ensures { CupsAreDone }
{}
