//! Laws of every match, as contracts of functions that do nothing.
ghost use Rattle.match_core.specs.Fairness.{MatchesAreFair, PlainMatchesAsk};
ghost use Rattle.match_core.specs.Plays.{MatchesNearTheirEnd, MatchesEnd, MatchesAreJudged};
ghost use Rattle.match_core.specs.Feeds.{MatchesAreOfTheirLines, MatchesBegin};
ghost use Rattle.match_core.specs.Lates.{MatchesTellLates};

/// For every list of events that answer the acts, the moves are a legal game that begins with the
/// given moves. No later move follows the end of the game. Each later move is what the reply of the
/// side to move denotes. Each side was sent all of them, or all but the last, in the lines for
/// these moves.
pub fn matches_are_fair()
    ensures { MatchesAreFair }
{}

/// Each event that answers the act brings a match nearer to its end.
pub fn matches_near_their_end()
    ensures { MatchesNearTheirEnd }
{}

/// A whole match that took exactly these lines, with no fault and no late answer, is the match of
/// these lines.
pub fn matches_are_of_their_lines()
    ensures { MatchesAreOfTheirLines }
{}

/// The match of two sides whose lines are known comes to its end.
pub fn matches_end()
    ensures { MatchesEnd }
{}

/// A match is over if and only if it has a verdict.
pub fn matches_are_judged()
    ensures { MatchesAreJudged }
{}

/// A match that has taken exactly these lines so far, with no fault and no late answer, is an
/// initial part of the match of these lines. That holds for its moves, the lines sent, and all
/// events, apart from readings of the clock.
pub fn matches_begin()
    ensures { MatchesBegin }
{}

/// If a side forfeits for a late answer, three things hold. It was its turn. Sides are asked with a
/// time. It answered after the time and the margin had passed since it was asked.
pub fn matches_tell_lates()
    ensures { MatchesTellLates }
{}

/// A match that begins with the opening, and may have a move, asks the side to move as soon as both
/// sides were sent the game.
pub fn plain_matches_ask()
    ensures { PlainMatchesAsk }
{}
