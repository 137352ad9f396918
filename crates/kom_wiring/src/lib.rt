//! The wiring: which halves the two ends of each living channel are plugged at, and which channels
//! are held.
#![tactic(auto)]

mod link;
mod socket;
mod wiring;

pub use link::Link;
pub use wiring::{AtHalf, Wiring};
