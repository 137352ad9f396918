//! Laws of what the environment releases at a time, and of how much can wait and go out; there is no
//! code.
#![tactic(auto)]

ghost use Rattle.kom_batches.specs.Laws.{BatchesAreAtPorts, BatchesAreShort, ReleasesAreCounted, OutsAreShort, QueuesAreShort};

use kom_limits::{acts_are_bounded, numbers_are_enough, records_are_short};

/// Under a plan that fits, each release is at a port of the root.
pub fn batches_are_at_ports()
    ensures { BatchesAreAtPorts }
{}

/// After a legal record of a plan that fits, at most 2,007,000,000 releases are due at one time, so
/// that the place of each fits 32 bits.
pub fn batches_are_short()
    ensures { BatchesAreShort }
{
    acts_are_bounded();
    records_are_short();
}

/// Each release comes into one direction of one channel.
pub fn releases_are_counted()
    ensures { ReleasesAreCounted }
{}

/// After a legal record of a plan that fits, at most 100,000,000,000,000,000 events wait in channels,
/// so that their number fits 64 bits.
pub fn queues_are_short()
    ensures { QueuesAreShort }
{
    acts_are_bounded();
    records_are_short();
    numbers_are_enough();
}

/// After a legal record of a plan that fits, at most 100,000,000,000,000,000 events have gone out to
/// the environment, so that their number fits 64 bits.
pub fn outs_are_short()
    ensures { OutsAreShort }
{
    acts_are_bounded();
    records_are_short();
    numbers_are_enough();
}
