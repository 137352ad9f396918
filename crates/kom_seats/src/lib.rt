//! Workers that are placed at one exchange, driven by one thread through calls in a given order, and
//! a try of a run that such calls make.
#![tactic(auto)]

mod calls;

pub use calls::{Placed, end_job, rest, take_item};

#[cfg(test)]
mod tests;
