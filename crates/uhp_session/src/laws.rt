//! Laws of sessions, as contracts of functions that do nothing.

ghost use Rattle.uhp_session.specs.Laws.{
  RefusalsChangeNothing,
  SessionsHoldGames,
  BestMovesAreNamed,
  OptionsChangeNoAnswer,
  DepthsServeSearches,
};

/// If the first line of the answer begins with `err ` or `invalidmove `, the session does not
/// change.
pub fn refusals_change_nothing()
    ensures { RefusalsChangeNothing }
{}

/// Let a session have no game, or one of at most 5,000 moves, each legal in the position before it.
/// Let none of them follow the end of the game under its own rule. Then the same holds after every
/// line. A new session has no game.
pub fn sessions_hold_games()
    ensures { SessionsHoldGames }
{}

/// In a position that is not over, `bestmove` names a legal move at every depth from 1 on. It is
/// the first of the moves of greatest value at that depth. A search depends on the position alone.
pub fn best_moves_are_named()
    ensures { BestMovesAreNamed }
{}

/// The values of the options show only in replies to `options`, except that Repetition shows in
/// what `newgame` begins. To every other line, two sessions with the same game give the same reply,
/// and they have the same game afterwards. To `newgame` they do so if their values of Repetition
/// are equal.
pub fn options_change_no_answer()
    ensures { OptionsChangeNoAnswer }
{}

/// The depth that a timed search completed shows only in the reply to the line that asks for it. It
/// shows in no session after a line.
pub fn depths_serve_searches()
    ensures { DepthsServeSearches }
{}
