use crate::item::Item;
use kom_base::{Chan, Comp, Event};
use kom_lang::{Body, Effects};
use sqlite_items::Items;

/// What came of a handling.
#[derive(Debug, Drop)]
pub enum Outcome {
    /// The component was destroyed while it handled the item.
    Void,
    /// The handling faulted with this number. Nothing of it is kept.
    Fault(u16),
    /// The body after the handling, and its effects in order.
    Done { body: Body, effects: Effects },
}

/// An event that the environment releases into an environment channel.
#[derive(Debug, Drop)]
pub struct Release {
    pub chan: Chan,
    pub event: Event,
}

/// A list of releases. Contracts see the list.
pub type Releases = Items<Release>;

/// A list of places. Contracts see the list.
pub type Places = Items<u32>;

/// An entry of a record.
#[derive(Debug, Drop)]
pub enum Entry {
    /// Worker `w` took an item for component `c`.
    Took {
        w: u32,
        c: Comp,
        item: Item,
    },
    /// Worker `w` ended the job of the Took at position `took`. `to` is who is told of the fault
    /// that this entry raises, if it raises one and someone is told; `unreached` has the places of
    /// its answers that enter no channel.
    Did {
        w: u32,
        c: Comp,
        took: u32,
        outcome: Outcome,
        to: Option<Comp>,
        unreached: Places,
    },
    /// Worker `w` moved the time to `t`, and the environment released what was due then.
    Moved {
        w: u32,
        t: u64,
        released: Releases,
    },
}
