//! The numbers of the channels: first those of the root's ports, then the channels of each instance,
//! one after another.
#![tactic(auto)]

mod numbers;

pub use numbers::Numbers;
