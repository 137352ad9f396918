//! The beginning of a run.
#![tactic(auto)]

mod begins;
#[cfg(test)]
mod tests;

pub use begins::begin;
