//! Event types with their subtypes, port types, and the selectors of channels.
#![tactic(auto)]

mod event_types;
mod port_types;
mod selector;

pub use event_types::{EventRow, EventTypes, parent_cycle};
pub use port_types::{Kinds, PortRow, PortTypes};
pub use selector::{Op, Selector, Test, matches};

#[cfg(test)]
mod tests;
