use kom_base::{Chan, EntryNo};

/// Where a raise stands in the plan: after all that are due before it, and after those of its own
/// time that were there before it.
#[derive(Clone, Copy, Debug, PartialEq, Eq, PartialOrd, Ord)]
pub struct Place {
    pub time: u64,
    pub rank: u64,
}

/// When the event that asked for a release with this number is due.
#[derive(Clone, Copy, Debug, PartialEq, Eq, PartialOrd, Ord)]
pub struct Due {
    pub time: u64,
    pub no: EntryNo,
}

/// The channel of a release, and the first value of its event, which is the id of a timer.
#[derive(Clone, Copy, Debug, PartialEq, Eq, PartialOrd, Ord)]
pub struct Tag {
    pub chan: Chan,
    pub id: i64,
    pub no: EntryNo,
}
