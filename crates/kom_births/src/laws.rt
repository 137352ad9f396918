ghost use Rattle.kom_births.specs.Laws.{CreationsAreSown, OpeningsAreSown};
ghost use Rattle.kom_births.specs.Sharing.{RoomsAreShared, RoomsAreLeft};

/// What is planted where a living component creates in an empty slot is the step of that creation.
/// The call gives a proof this fact, and does nothing else, like those below.
pub fn creations_are_sown()
    ensures { CreationsAreSown }
{}

/// The opened state with the root planted and started is that of the empty record.
pub fn openings_are_sown()
    ensures { OpeningsAreSown }
{}

/// The room for two trees is room for the first, and once it is planted, for the second.
pub fn rooms_are_shared()
    ensures { RoomsAreShared }
{}

/// The room for a tree stays while none is taken from what has no number yet.
pub fn rooms_are_left()
    ensures { RoomsAreLeft }
{}
