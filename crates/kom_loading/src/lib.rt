//! System files and scenario files of a shelf, by name or from their texts, and the lines that refuse
//! them.
#![tactic(auto)]

mod refusals;
mod scenario;
mod system;
#[cfg(test)]
mod tests;

pub use refusals::refusal_line;
pub use scenario::{Planned, load_scenario, plan_of};
pub use system::{Loaded, load_system, system_of};
