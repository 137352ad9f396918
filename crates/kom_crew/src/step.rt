//! What a step of a worker comes to.

/// What a step of a worker came to.
#[derive(Drop)]
pub enum Step {
    /// There may be more to do.
    Again,
    /// Nothing is left to do, or the record is closed.
    Over,
    /// Want of memory; a job that is in hand is left with the worker.
    Memory,
}
