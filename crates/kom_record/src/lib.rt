//! Records of runs: entries and plans, what a record means, and what a station promises.
#![tactic(auto)]

mod answers;
mod copies;
mod entry;
mod gate;
mod item;
mod job;
mod offers;
mod plan;
mod record;
mod station;
#[cfg(test)]
mod tests;
mod wakes;

pub use answers::{Committed, Rest, Taken, Tally};
pub use entry::{Entry, Outcome, Places, Release, Releases};
pub use gate::{Gate, NoGate};
pub use item::{Back, Control, Item};
pub use job::{Job, Ran};
pub use plan::{Plan, Raise, Raises};
pub use record::Record;
pub use station::{StandsFor, Station};
pub use wakes::Wakes;
