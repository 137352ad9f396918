ghost use Rattle.kom_changes.specs.Laws.{EndsAreAtCreated, OthersAreKept};

/// At each point of a run the ends of living channels are at components that were created. The call
/// gives a proof this fact, and does nothing else, like the next.
pub fn ends_are_at_created()
    ensures { EndsAreAtCreated }
{}

/// Within a handling the channels and slots of all other components are as their bodies have them.
pub fn others_are_kept()
    ensures { OthersAreKept }
{}
