//! The laws of game strings.

ghost use Rattle.game_text.specs.Laws.{
  StringsAreGames,
  IsOneGame,
  GamesAreRead,
  FaultsAreRead,
  StringsAreGamesUnder,
  IsOneGameUnder,
  GamesAreReadUnder,
  FaultsAreReadUnder,
  OffIsPlain,
};

/// The string of a game of at most 5,000 moves is a line that is this game.
pub fn strings_are_games()
    ensures { StringsAreGames }
{}

/// A line is at most one game: one type and one list of moves.
pub fn lines_are_one_game()
    ensures { IsOneGame }
{}

/// The function that `read_game` computes returns a game exactly if the line is that game, and a
/// fault exactly if the line is refused with it.
pub fn lines_are_read()
    ensures games { GamesAreRead }
    ensures faults { FaultsAreRead }
{}

/// Let a game of at most 5,000 moves stand under the rule of third repetition. Its string under the
/// rule is a line that is this game under the rule.
pub fn strings_are_games_under()
    ensures { StringsAreGamesUnder }
{}

/// Under the rule too, a line is at most one game. If the rule is off, a line is a game under it
/// exactly if it is a game.
pub fn lines_are_one_game_under()
    ensures one { IsOneGameUnder }
    ensures off { OffIsPlain }
{}

/// The function that `read_game_under` computes returns a game exactly if the line is that game
/// under the rule, and a fault exactly if the line is refused with it.
pub fn lines_are_read_under()
    ensures games { GamesAreReadUnder }
    ensures faults { FaultsAreReadUnder }
{}
