//! Arcs of occupied neighbours: which places can become separating, or cease to be, beside one arc.
//!
//! The occupied neighbours of a place form one arc if, in cyclic order, exactly one of them has an
//! unoccupied place before it. If a piece comes onto such an empty place, or leaves it, only at its
//! neighbours can it change which places are separating (articulation points).
#![tactic(auto)]

mod masks;

ghost use Rattle.arcs.specs.Arcs.{
  OneArcLaw,
  ArcButOneLaw,
  AnotherBesideLaw,
  OneBesideLaw,
  OneArcIsNoCut,
};

pub use masks::{CaseRow, CaseTable, arc_ends, arcs};

/// If a place is occupied whose occupied neighbours form one arc, and the board is one hive before
/// and after, then the place is not separating. Every other place that is not its neighbour is
/// separating after exactly if it was before. Read backwards, the law holds for a place that is
/// taken away.
pub fn one_arc_law()
    ensures { OneArcLaw }
{}

/// What happens to a neighbour of the place that is added. If the other neighbours form one arc
/// without it, it is separating after exactly if it was before. So it is with an end of an arc of
/// two or more. If another neighbour is occupied, it is separating after only if it was before. If
/// none is, it is separating after exactly if the board before had another occupied place.
pub fn neighbour_laws()
    ensures end { ArcButOneLaw }
    ensures another { AnotherBesideLaw }
    ensures one { OneBesideLaw }
{}

/// A place of one hive whose occupied neighbours form one arc is not separating.
pub fn one_arc_is_no_cut()
    ensures { OneArcIsNoCut }
{}
