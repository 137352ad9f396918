//! Laws of how much a run can come to; there is no code.
#![tactic(auto)]

ghost use Rattle.kom_limits.specs.Laws.{TreesAreSmall, InstancesAreFew, ActsAreBounded, NumbersAreEnough, RecordsAreShort};

/// The creation of one instance makes at most 1,000 instances and 1,000 channels.
pub fn trees_are_small()
    ensures { TreesAreSmall }
{}

/// So many effects make at most a thousand times as many instances and channels, beside those that
/// the run begins with.
pub fn instances_are_few()
    ensures { InstancesAreFew }
{}

/// A legal record has at most 32 effects for each of the steps of its plan.
pub fn acts_are_bounded()
    ensures { ActsAreBounded }
{}

/// In a legal record of a plan that fits there are at most 3,200,001,000 instances and few more
/// channels, also within the handlings that are in hand, so that numbers of 32 bits are enough.
pub fn numbers_are_enough()
    ensures { NumbersAreEnough }
{}

/// A legal record has at most two entries for each of the steps of its plan and one for each of its
/// instants.
pub fn records_are_short()
    ensures { RecordsAreShort }
{}
