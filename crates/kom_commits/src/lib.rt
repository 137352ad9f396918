//! The end of a handling in the state of a run.
#![tactic(auto)]

mod acting;
mod begun;
mod counted;
mod enacting;

pub use acting::act;
pub use begun::begin;
pub use counted::do_all;
pub use enacting::enact;
