//! One worker of a crew, and what it has left when it ends.
use kom_exchange::Seat;
use kom_ready::Lot;
use kom_record::{Job, Ran};

/// The job that a worker has in hand between two of its steps.
#[derive(Drop)]
pub enum Left {
    /// None.
    Nothing,
    /// A job that it took and could not handle for want of memory.
    Job(Job),
    /// A job that it handled and could not commit for want of memory.
    Ran(Ran),
}

/// A worker: its seat at the exchange, its lot, and what it has left.
#[derive(Drop)]
pub struct Worker {
    pub seat: Seat,
    pub lot: Lot,
    pub left: Left,
    /// How many components its lot gave it. The count stands still at the end of its type.
    pub given: u64,
}
