//! That the places close to one hive have cells of their own: a law, as the contract of a function
//! that does nothing.

ghost use Rattle.torus_board.specs.Residues.{ResidueLaw};

/// On a grid of 32 times 32 cells or more, the occupied places of one hive and all places within
/// two steps of them have cells of their own, each found by the residues of its coordinates. So it
/// is for the sides 32, 64 and 128.
pub fn residues_are_distinct()
    ensures { ResidueLaw }
{}
