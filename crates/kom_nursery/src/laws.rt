ghost use Rattle.kom_nursery.specs.Laws.{HandlingsArePrepared};

/// Where a handling ends in a legal record of a plan that fits, what its effects create may be made
/// by its component. The call gives a proof this fact, and does nothing else.
pub fn handlings_are_prepared()
    ensures { HandlingsArePrepared }
{}
