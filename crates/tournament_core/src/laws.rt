//! Laws of tournaments, as contracts of functions that do nothing.

ghost use Rattle.tournament_core.specs.Laws.{EquallyOften, PointsAddUp, OrderIsFree};

/// From each opening, each two engines that meet play once with either colour in each round. No
/// other game is played.
pub fn equally_often()
    ensures { EquallyOften }
{}

/// The points of all engines add up to twice the number of games.
pub fn points_add_up()
    ensures { PointsAddUp }
{}

/// The standing of an engine does not depend on the order in which the games are noted.
pub fn order_is_free()
    ensures { OrderIsFree }
{}
