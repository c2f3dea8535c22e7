//! Laws of the rule of third repetition, as contracts of functions that do nothing.

ghost use Rattle.hive_model.specs.Repetition.{
  AllStandUnderFalse,
  StandsMoveByMove,
  SameBoardIsTested,
  KeysGiveTimes,
  KeysGrow,
};

/// The test of keys with the same board holds exactly if all but the turns are equal.
pub fn same_boards_are_tested()
    ensures { SameBoardIsTested }
{}

/// The keys of a game's positions determine how often its last position has occurred. Each move
/// adds one key.
pub fn keys_count_repeats()
    ensures times { KeysGiveTimes }
    ensures more { KeysGrow }
{}

/// A game with one more move stands under the rule exactly if the game before it stands and is not
/// over. If the rule is off, every game stands.
pub fn games_stand_by_moves()
    ensures more { StandsMoveByMove }
    ensures off { AllStandUnderFalse }
{}
