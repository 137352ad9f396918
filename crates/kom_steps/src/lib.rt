//! The statements of a handling, run one after another.
#![tactic(auto)]

mod body;
mod children;
mod events;
mod fails;
mod handling;
mod names;
mod ports;
mod run;
mod subscriptions;
#[cfg(test)]
mod tests;
mod wires;

pub use fails::fails_fit;
pub use handling::{Handling, Setting};
pub use run::run_statements;
