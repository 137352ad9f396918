ghost use Rattle.kom_losses.specs.Laws.{WiresAreCountedWithin};

/// After some effects of a handling in a legal record each body in the state has as many channels
/// as its component was given numbers for. The call gives a proof this fact, and does nothing else.
pub fn wires_are_counted()
    ensures { WiresAreCountedWithin }
{}
