//! The generated texts: a ring of relays with a spare one, and the load that drives it.
#![tactic(auto)]

mod fill;
mod make;
mod template;

pub use fill::Place;
pub use make::{make_scenario, make_system};
pub use template::{SCENARIO, SYSTEM};

#[cfg(test)]
mod tests;
