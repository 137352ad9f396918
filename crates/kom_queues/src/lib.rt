//! The queues of entry numbers that wait in the directions of the living channels, and the first
//! of all that wait for a component.
#![tactic(auto)]

mod front;
mod queue;
mod queues;
mod slot;
#[cfg(test)]
mod tests;

pub use front::{Arrival, Front};
pub use queue::Queue;
pub use queues::Queues;
pub use slot::Slot;
