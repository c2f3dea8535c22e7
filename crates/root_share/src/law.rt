//! The law of the work at a root.

ghost use Rattle.root_share.specs.Run.{ClosedChildrenGiveTheBest};

/// If every child of a root was closed by true steps, the first child with the greatest exact value
/// is the first with the greatest value.
pub fn closed_children_give_the_best()
    ensures { ClosedChildrenGiveTheBest }
{}
