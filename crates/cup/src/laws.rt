//! The law of points, as the contract of a function that does nothing.

ghost use Rattle.cup.specs.Laws.{PointsAddUp};

/// With n engines the points of all of them add up to 2n(n - 1), whatever the verdicts.
pub fn points_add_up()
    ensures { PointsAddUp }
{}
