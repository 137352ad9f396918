ghost use Rattle.kom_state.specs.Laws.{ChannelsAreNumbered, NumbersStay};

/// The channels of a state that is a system's have the numbers that the definitions of a run give
/// them. The call gives a proof this fact, and does nothing else.
pub fn channels_are_numbered()
    ensures { ChannelsAreNumbered }
{}

/// A change that leaves the instances and the numbers leaves them those of the system.
pub fn numbers_stay()
    ensures { NumbersStay }
{}
