//! Laws of how many events wait in the queues of a state, step by step; there is no code.
#![tactic(auto)]

ghost use Rattle.kom_queued.specs.Laws.{QueuedByState, SameQueuesHoldAsMany, RelinksHoldAsMany, ComingsAddOne, CreationsAddNone, RemovalsTakeTheirs};

use kom_wakes::queued_is_counted;

/// What waits after a record is what waits in the queues of its channels.
pub fn queued_by_state()
    ensures { QueuedByState }
{
    queued_is_counted();
}

/// A step that leaves the queues leaves how many events wait in them.
pub fn same_queues_hold_as_many()
    ensures { SameQueuesHoldAsMany }
{}

/// So does a change of channels.
pub fn relinks_hold_as_many()
    ensures { RelinksHoldAsMany }
{}

/// An event that comes into a queue is one more.
pub fn comings_add_one()
    ensures { ComingsAddOne }
{}

/// A creation adds none.
pub fn creations_add_none()
    ensures { CreationsAddNone }
{}

/// A removal takes what waits in the channels that end.
pub fn removals_take_theirs()
    ensures { RemovalsTakeTheirs }
{}
