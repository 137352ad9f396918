//! Simulations: one worker drives a station to its end, always with the component that has been
//! ready longest.
#![tactic(auto)]

mod line;
mod simulation;
mod turns;

pub use simulation::{Simulated, simulate};

#[cfg(test)]
mod tests;
