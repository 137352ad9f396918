use crate::job::{Job, Ran};
use crate::wakes::Wakes;
use kom_base::Comp;

/// The answer of `Station::take`.
#[derive(Drop)]
pub enum Taken {
    /// The next item of the component was taken.
    Job(Job),
    /// The component has nothing to do now, or a job of it is in hand.
    Nothing,
    /// The record is closed: it takes no more items.
    Closed,
    /// Want of memory; nothing was taken.
    Memory,
}

/// The answer of `Station::commit`.
#[derive(Drop)]
pub enum Committed {
    /// The Did was added, and these components became ready by it.
    Wakes(Wakes),
    /// Want of memory; nothing was added.
    Memory(Ran),
}

/// The answer of `Station::rest`.
#[derive(Drop)]
pub enum Rest {
    /// The time moved, and these components became ready by it.
    Moved(Wakes),
    /// Some component is ready; this is the one with the least number.
    Ready(Comp),
    /// None is ready, but a job is in hand.
    Waiting,
    /// Nothing is left to do.
    End,
    /// The record is closed: it takes no more items, and the time does not move.
    Closed,
    /// Want of memory; the time did not move.
    Memory,
}

/// What a run leaves.
#[derive(Clone, Copy, Debug, PartialEq, Eq)]
pub struct Tally {
    /// How many events wait in channels, those that go to the environment left out.
    pub queued: u64,
    /// How many events went out to the environment.
    pub out: u64,
    /// Whether some component is runnable, or something is pending.
    pub more: bool,
}
