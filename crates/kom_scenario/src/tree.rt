use kom_scengram::Moment;
use sqlite_items::Items;

/// An argument of the events of a source.
#[derive(Clone, Copy, Debug)]
pub enum Arg {
    Number(i64),
    /// The number of the event in its source, from 0.
    Index,
    /// A number from `low` to `high`, which is drawn anew for each event.
    Draw { low: u32, high: u32 },
}

pub type Args = Items<Arg>;

/// What a source raises: events of a type, at a port of the root.
#[derive(Debug, Drop)]
pub struct Raising {
    pub kind: u16,
    pub args: Args,
    pub port: u8,
}

/// When a process starts: at a time, or so long after a moment of the source of a number.
#[derive(Clone, Copy, Debug)]
pub enum Start {
    At(u64),
    After {
        moment: Moment,
        source: usize,
        by: u64,
    },
}

/// So many events, with gaps from `low` to `high` between them.
#[derive(Debug, Drop)]
pub struct Process {
    pub start: Start,
    pub count: u32,
    pub low: u32,
    pub high: u32,
    pub raising: Raising,
}

/// Where events come from: a line with one event, or a process.
#[derive(Debug, Drop)]
pub enum Source {
    At { time: u64, raising: Raising },
    Process(Process),
}

pub type Sources = Items<Source>;

/// The tree of a scenario file, with the numbers that its names stand for: sources are numbered
/// from 0 in the order of the text.
#[derive(Debug, Drop)]
pub struct Scene {
    /// Where the draws begin.
    pub seed: u64,
    /// The greatest number of items that are taken.
    pub steps: u32,
    /// The greatest number of times that the time moves.
    pub instants: u32,
    /// The least delay of a message.
    pub lo: u32,
    /// The greatest delay of a message.
    pub hi: u32,
    pub sources: Sources,
}
