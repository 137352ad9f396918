//! The ends of jobs in a run, each as an entry of its record.
#![tactic(auto)]

mod ended;
mod voids;

pub use ended::{end_job, position_of};
pub use voids::end_void;
