//! Lots of components that are ready, one for each worker, from which the others steal.
#![tactic(auto)]

mod draining;
mod gathered;
mod gathering;
mod guest;
mod lots;
mod making;
mod pushing;
mod rule;
mod stealing;
mod store;

pub use gathered::Gathered;
pub use lots::{Lot, ReadySet};
pub use rule::{Balance, Hand};

#[cfg(test)]
mod tests;
