//! Two workers at one station, driven by one thread through calls in a given order, and tries of
//! the runs that such calls make.
#![tactic(auto)]

mod calls;

pub use calls::{Hand, Said, end_job, rest, take_item};

#[cfg(test)]
mod tests;
