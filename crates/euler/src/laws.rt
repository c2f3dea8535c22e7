//! Laws of Euler's number, as contracts of functions that do nothing.

ghost use Rattle.euler.specs.Euler.{
  PutLaw,
  PutOnLaw,
  ClearedLaw,
  LiftLaw,
  LiftOffLaw,
  PartsLaw,
  OneHiveLaw,
  FewArcsLaw,
  ArcsCutLaw,
  ManyArcsLaw,
};

/// A piece on an empty place adds 1 to the number, minus the arcs of occupied neighbours around the
/// place. On an occupied place it changes nothing.
pub fn puts_change_the_number()
    ensures empty { PutLaw }
    ensures occupied { PutOnLaw }
{}

/// A place that is cleared, or whose one piece is lifted, takes away what it had added: 1, minus
/// the arcs of occupied neighbours around it. A piece that is lifted from another changes nothing.
pub fn lifts_change_the_number()
    ensures cleared { ClearedLaw }
    ensures ground { LiftLaw }
    ensures above { LiftOffLaw }
{}

/// If each occupied place is joined to one on a list by a walk over occupied places, the number is
/// at most the length of that list.
pub fn parts_bound_the_number()
    ensures { PartsLaw }
{}

/// The number of one hive is at most 1.
pub fn one_hive_is_one_part()
    ensures { OneHiveLaw }
{}

/// A place of one hive whose occupied neighbours form fewer than two arcs is not separating.
pub fn few_arcs_are_no_cut()
    ensures { FewArcsLaw }
{}

/// On one hive with the number 1, an occupied place is separating exactly if its occupied
/// neighbours form two or more arcs.
pub fn arcs_tell_cuts()
    ensures { ArcsCutLaw }
{}

/// An occupied place is separating if Euler's number of the board and the number of arcs of its
/// occupied neighbours add up to 3 or more.
pub fn many_arcs_are_a_cut()
    ensures { ManyArcsLaw }
{}
