ghost use Rattle.kom_extents.specs.Laws.{ChildrenAreKept};

/// Where a state stands for a legal record, whoever lives in a slot of a component is in a slot of
/// its body, and slots are few. The call gives a proof this fact, and does nothing else.
pub fn children_are_in_slots()
    ensures { ChildrenAreKept }
{}
