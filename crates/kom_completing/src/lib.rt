//! The end of a job whose handling went through, as an entry of the record of a run.
#![tactic(auto)]

mod ends;

pub use ends::end_done;
