//! Handlings: what comes of a job.
#![tactic(auto)]

mod handlers;
mod item;
mod outcome;
mod prepare;
#[cfg(test)]
mod tests;

pub use outcome::{Reacted, react};
