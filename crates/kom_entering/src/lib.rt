//! What the entry of a handling brings into channels, what of it goes out to the environment, and
//! which of its answers reach no channel, worked out before anything changes.
#![tactic(auto)]

mod entering;
mod lists;
mod relays;
mod spreading;
mod ways;

pub use lists::{Coming, Entering, Going};
