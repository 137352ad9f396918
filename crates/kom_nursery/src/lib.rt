//! What is planted of the trees that a handling creates, made before anything changes.
#![tactic(auto)]

mod laws;
mod nursery;
mod one;

pub use laws::handlings_are_prepared;
pub use nursery::Nursery;
