//! The end of a job whose handling faulted, as an entry of the record of a run.
#![tactic(auto)]

mod ends;
mod noted;
mod room;

pub use ends::end_fault;
