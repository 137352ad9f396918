//! A system to read scenarios for, and tries of scenarios, of their plans and of the generated
//! texts.
#![tactic(auto)]

mod ring;

pub use ring::ring_system;

#[cfg(test)]
mod tests;
