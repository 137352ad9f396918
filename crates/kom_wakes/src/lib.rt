//! Laws of who becomes ready by an entry, and of what is counted; there is no code.
#![tactic(auto)]

ghost use Rattle.kom_wakes.specs.Laws.{RunnableByState, UntouchedStay, SameWorkGoesOn, PutsLeave, ComingsLeave, RelinksLeave, RemovalsLeave, CreationsLeave, EndsLeave, TakesLeave, BusyGoesOn, WakesAreMarked, CountsGoOn, OutIsCounted, QueuedIsCounted};

/// Who is runnable is read off the state: a control item waits, or the component is active and there
/// is a front for it; and no job of it is in hand.
pub fn runnable_by_state()
    ensures { RunnableByState }
{}

/// A component that has the same to do before and after, and is as busy, is runnable after exactly
/// where it was before.
pub fn untouched_stay()
    ensures { UntouchedStay }
{}

/// Having the same to do goes on from step to step.
pub fn same_work_goes_on()
    ensures { SameWorkGoesOn }
{}

/// A step that puts nothing to a component leaves what it has to do.
pub fn puts_leave()
    ensures { PutsLeave }
{}

/// So does a step that brings nothing into a queue from which it receives.
pub fn comings_leave()
    ensures { ComingsLeave }
{}

/// So does a change of channels from which it receives neither before nor after.
pub fn relinks_leave()
    ensures { RelinksLeave }
{}

/// So does the end of others, with channels from which it does not receive.
pub fn removals_leave()
    ensures { RemovalsLeave }
{}

/// So does a creation.
pub fn creations_leave()
    ensures { CreationsLeave }
{}

/// So does the end of a handling of another component.
pub fn ends_leave()
    ensures { EndsLeave }
{}

/// So does an item that another component takes.
pub fn takes_leave()
    ensures { TakesLeave }
{}

/// After a Took its component is busy, after a Did it is not, and nobody else changes.
pub fn busy_goes_on()
    ensures { BusyGoesOn }
{}

/// Those that an entry wakes are among those that it touched.
pub fn wakes_are_marked()
    ensures { WakesAreMarked }
{}

/// One entry more counts as what it is, and what is closed stays closed.
pub fn counts_go_on()
    ensures { CountsGoOn }
{}

/// The number of events that went out is the length of the list of them.
pub fn out_is_counted()
    ensures { OutIsCounted }
{}

/// The number of events that wait in living channels is that of all queues of the state.
pub fn queued_is_counted()
    ensures { QueuedIsCounted }
{}
