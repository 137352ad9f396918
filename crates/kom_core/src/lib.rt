//! A station over the kept state of a run.
#![tactic(auto)]

mod ends;
mod machine;
mod ready;
#[cfg(test)]
mod tests;

pub use machine::{Begun, Core};
