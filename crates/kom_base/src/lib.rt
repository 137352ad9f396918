//! Numbers, halves, values and events: the words that every other crate speaks in.
#![tactic(auto)]

mod lists;
mod numbers;
mod values;

pub use lists::{At, Copied};
pub use numbers::{Chan, Comp, Dir, EntryNo, Half, Side};
pub use values::{Event, Values};
