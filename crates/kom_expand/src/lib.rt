//! The plan of a scenario: its events with their draws, in order of time.
#![tactic(auto)]

mod draws;
mod plan;
mod sources;

pub use plan::expand;
