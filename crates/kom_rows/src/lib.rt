//! Examples of whole records, each legal, finished and with the text that is shown.
#![tactic(auto)]

ghost use Rattle.kom_rows.specs.Smallest.{Smallest};
ghost use Rattle.kom_rows.specs.Subtypes.{Subtypes};
ghost use Rattle.kom_rows.specs.Selectors.{Selectors};
ghost use Rattle.kom_rows.specs.SelectorsOfSeveralTests.{SelectorsOfSeveralTests};
ghost use Rattle.kom_rows.specs.HoldAndResume.{HoldAndResume};
ghost use Rattle.kom_rows.specs.FreeSource.{FreeSource};
ghost use Rattle.kom_rows.specs.Replacement.{Replacement};
ghost use Rattle.kom_rows.specs.FaultPassesUp.{FaultPassesUp};
ghost use Rattle.kom_rows.specs.UnhandledFault.{UnhandledFault};
ghost use Rattle.kom_rows.specs.DestroyedAtWork.{DestroyedAtWork};
ghost use Rattle.kom_rows.specs.StepsUsedUp.{StepsUsedUp};
ghost use Rattle.kom_rows.specs.Timers.{Timers};
ghost use Rattle.kom_rows.specs.Network.{Network};
ghost use Rattle.kom_rows.specs.RandomDelays.{RandomDelays};
ghost use Rattle.kom_rows.specs.TwoChannels.{TwoChannels};
ghost use Rattle.kom_rows.specs.FaultInInit.{FaultInInit};
ghost use Rattle.kom_rows.specs.Replies.{Replies};
ghost use Rattle.kom_rows.specs.UnreachedReply.{UnreachedReply};
ghost use Rattle.kom_rows.specs.RelayedReply.{RelayedReply};
ghost use Rattle.kom_rows.specs.Escalation.{Escalation};
ghost use Rattle.kom_rows.specs.UnhandledEscalation.{UnhandledEscalation};
ghost use Rattle.kom_rows.specs.Facts.{MovedWakes, DidWakes, PlanOfReplacement, JobOfReplacement};

/// A component without handlers is started, and that is all.
pub fn smallest()
    ensures { Smallest }
{}

/// An event runs the handlers of its type and of the types above it, in the order in which they were subscribed.
pub fn subtypes()
    ensures { Subtypes }
{}

/// Channels let pass what their selectors say.
pub fn selectors()
    ensures { Selectors }
{}

/// An event passes a selector of two tests where it passes both.
pub fn selectors_of_several_tests()
    ensures { SelectorsOfSeveralTests }
{}

/// A held channel keeps what enters it, and gives it on in order after it is resumed.
pub fn hold_and_resume()
    ensures { HoldAndResume }
{}

/// What is offered while the source end of a channel is free does not enter it.
pub fn free_source()
    ensures { FreeSource }
{}

/// A component is replaced by one that goes on from its state, and no event is lost.
pub fn replacement()
    ensures { Replacement }
{}

/// A fault passes ancestors without a fault handler, and reaches the nearest that has one.
pub fn fault_passes_up()
    ensures { FaultPassesUp }
{}

/// A fault of which no ancestor is told closes the record.
pub fn unhandled_fault()
    ensures { UnhandledFault }
{}

/// A component that is destroyed while a worker handles an item of it ends that job with nothing. Two workers.
pub fn destroyed_at_work()
    ensures { DestroyedAtWork }
{}

/// A run that would go on for ever ends when its steps are used up.
pub fn steps_used_up()
    ensures { StepsUsedUp }
{}

/// Timers go off in order of their times, and one that has gone off cannot be cancelled.
pub fn timers()
    ensures { Timers }
{}

/// Messages go out to the network and come back after a delay, here the same for all.
pub fn network()
    ensures { Network }
{}

/// Messages with random delays: the one that was sent later comes first.
pub fn random_delays()
    ensures { RandomDelays }
{}

/// One event that enters two channels is received from each, the first channel first.
pub fn two_channels()
    ensures { TwoChannels }
{}

/// A component whose Init faults stays without subscriptions, and Start leaves it passive.
pub fn fault_in_init()
    ensures { FaultInInit }
{}

/// A server answers two clients, and each answer reaches the client that asked.
pub fn replies()
    ensures { Replies }
{}

/// An answer whose way back was unplugged reaches nothing. Two workers.
pub fn unreached_reply()
    ensures { UnreachedReply }
{}

/// An answer goes back through the component that had passed the question on.
pub fn relayed_reply()
    ensures { RelayedReply }
{}

/// A fault handler passes a fault on to the next ancestor that has one.
pub fn escalation()
    ensures { Escalation }
{}

/// A fault that is passed on where no ancestor is left closes the record.
pub fn unhandled_escalation()
    ensures { UnhandledEscalation }
{}

/// The components that a Moved makes ready.
pub fn moved_wakes()
    ensures { MovedWakes }
{}

/// The components that a Did makes ready, in order of number.
pub fn did_wakes()
    ensures { DidWakes }
{}

/// The plan of an example fits its system.
pub fn plan_fits()
    ensures { PlanOfReplacement }
{}

/// A job of an example is well formed.
pub fn job_is_well_formed()
    ensures { JobOfReplacement }
{}
