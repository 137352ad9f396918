//! What a seat knows. No value of these types is made.
use kom_record::{Entry, Plan};
use kom_system::System;
use std::collections::LinkedList;

/// The system and the plan of the station, which no call changes.
pub struct About {
    pub system: System,
    pub plan: Plan,
}

/// What stays with a number, also when its seat was joined into another.
pub struct Own {
    /// The number of the worker.
    pub number: u64,
    /// What no call changes. It stands here since a play cannot read the table's key.
    pub about: Option<About>,
    /// The length of the record that was given to `begin`.
    pub from: u64,
    /// The record that it has seen, the newest entry first.
    pub seen: LinkedList<Entry>,
    /// The positions of its own entries from there on, rising.
    pub mine: LinkedList<u64>,
    /// How often it had the turn.
    pub turns: u64,
}

/// Where a seat is in a call. The numbers are tickets, which do not wrap here.
pub enum Stage {
    /// In no call.
    Idle,
    /// It has drawn this ticket and waits for its turn.
    Waits(u64),
    /// Its turn has come.
    Turn(u64),
}

/// What a seat knows.
pub struct View {
    pub own: Own,
    /// What it took over from seats that were joined to it.
    pub taken: LinkedList<Own>,
    /// It was joined to another seat.
    pub spent: bool,
    pub stage: Stage,
    /// The right to number, with the next number.
    pub next: Option<u64>,
}
