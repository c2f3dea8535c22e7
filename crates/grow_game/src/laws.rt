//! The law of the moves of a seed, as the contract of a function that does nothing.

ghost use Rattle.grow_game.specs.Laws.{GrownMovesAreGames};

/// The moves that a seed makes are a game with all three expansions, each legal in the position
/// before it. There are at most as many as the plies asked for, and fewer only if the game is over.
pub fn grown_moves_are_games()
    ensures { GrownMovesAreGames }
{}
