//! Laws of the types of what is on its way in a run; there is no code.
#![tactic(auto)]

ghost use Rattle.kom_typed.specs.Laws.{EventsAreTyped, EventsPass, OutgoingAreTyped, JobsAreWellFormed};

/// Each event that entered a channel is of a declared type and has as many values as that type has
/// attributes.
pub fn events_are_typed()
    ensures { EventsAreTyped }
{}

/// Each event that entered a channel passes the port type of the channel in that direction.
pub fn events_pass()
    ensures { EventsPass }
{}

/// Each event that went out to the environment is of a declared type with as many values as it has
/// attributes.
pub fn outgoing_are_typed()
    ensures { OutgoingAreTyped }
{}

/// Each job in hand is well formed: all numbers in its body and its item are in range.
pub fn jobs_are_well_formed()
    ensures { JobsAreWellFormed }
{}
