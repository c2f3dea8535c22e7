//! What the definitions of the rules amount to, in a player's words.

ghost use Rattle.rule_laws.specs.Readings.{
  QueensComeFirst,
  NearPlacesAreBeside,
  NothingPlayedIsNotStarted,
  PlayGoesOn,
  TypesAreCounted,
};

/// While the queen of the side to move is in hand, each legal move is a placement, or it is the
/// pass and the only one.
pub fn queens_come_first()
    ensures { QueensComeFirst }
{}

/// The near places of a board are the origin, the occupied places and their neighbours. Every legal
/// move ends on one.
pub fn near_places_are_beside()
    ensures { NearPlacesAreBeside }
{}

/// A game has not started exactly if no ply was played. It is in progress exactly if some ply was
/// played and no queen is surrounded.
pub fn games_begin_and_go_on()
    ensures begins { NothingPlayedIsNotStarted }
    ensures goes_on { PlayGoesOn }
{}

/// The evaluation of a sound position counts the free pieces of its game type and no others, since
/// no others are on its board.
pub fn evaluations_count_the_type()
    ensures { TypesAreCounted }
{}
