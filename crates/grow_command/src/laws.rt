//! When the text about a made game is whole, and which best move it names, as contracts of
//! functions that do nothing.

ghost use Rattle.grow_command.specs.Laws.{BestMovesAreTold, GrowsAreDone};

/// If the sink counted no fault, the making of a game ends with `Done`, or because memory ran out.
pub fn grows_are_done()
    ensures { GrowsAreDone }
{}

/// If the game goes on, the line of the best move names the first of the legal moves that are worth
/// most with one ply searched. The move is written as on the board of the position.
pub fn best_moves_are_told()
    ensures { BestMovesAreTold }
{}
