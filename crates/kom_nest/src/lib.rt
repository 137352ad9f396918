//! A small system of one component in another, and tries of the state of its run.
#![tactic(auto)]

mod nest;
#[cfg(test)]
mod tests;

pub use nest::nest_system;
