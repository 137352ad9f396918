ghost use Rattle.kom_puts.specs.Laws.{FaultsArePut, SameStatesFollow};

/// A state that is the same in all its parts stands for the same point. The call gives a proof this
/// fact, and does nothing else, like those below.
pub fn same_states_follow()
    ensures { SameStatesFollow }
{}

/// The entry of a handling that faulted puts the fault to who is told of it, and nothing else.
pub fn faults_are_put()
    ensures { FaultsArePut }
{}
