//! The end of a handling noted in a run.
#![tactic(auto)]

mod noting;

pub use noting::note_done;
