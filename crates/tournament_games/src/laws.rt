//! Laws of the definitions, as contracts of functions that do nothing.
ghost use Rattle.tournament_games.specs.Readback.{EndsAreReadBack};

/// How a game ended is read back from the text of its verdict. This also holds if a program could
/// not be started.
pub fn ends_are_read_back()
    ensures { EndsAreReadBack }
{}
