//! Laws of how many events wait in the channels, step by step within an entry; there is no code.
#![tactic(auto)]

ghost use Rattle.kom_waits.specs.Laws.{QueuedIsBelow, ComesCount, SameQueuesCount, EffectsCount};

use kom_wakes::queued_is_counted;

/// What is counted of a record as waiting is what waits in the queues of the state.
pub fn queued_is_below()
    ensures { QueuedIsBelow }
{
    queued_is_counted();
}

/// As many events more wait as came in.
pub fn comes_count()
    ensures { ComesCount }
{}

/// A step that changes no queue changes no count.
pub fn same_queues_count()
    ensures { SameQueuesCount }
{}

/// An effect other than a Destroy leaves the count; a Destroy takes away what waits in the channels
/// that end.
pub fn effects_count()
    ensures { EffectsCount }
{}
