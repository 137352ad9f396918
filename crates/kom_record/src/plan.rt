use kom_base::{Chan, Event};
use sqlite_items::Items;

/// An event that the scenario releases at a time into an environment channel.
#[derive(Debug, Drop)]
pub struct Raise {
    pub time: u64,
    pub chan: Chan,
    pub event: Event,
}

/// A list of raises. Contracts see the list.
pub type Raises = Items<Raise>;

/// What the environment does in a run, and how long the run may go on.
#[derive(Debug, Drop)]
pub struct Plan {
    /// Where the random delays of messages begin.
    pub seed: u64,
    /// The greatest number of items that are taken, from 1 to 100,000.
    pub steps: u32,
    /// The greatest number of times that the time moves, from 1 to 100,000.
    pub instants: u32,
    /// The least delay of a message.
    pub lo: u32,
    /// The greatest delay of a message, at most 1,000,000,000.
    pub hi: u32,
    /// In order of time.
    pub raises: Raises,
}
