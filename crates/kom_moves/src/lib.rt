//! The move of time, as an entry of the record of a run.
#![tactic(auto)]

mod brings;
mod laws;
mod moves;
mod noted;
mod room;

pub use brings::{bring, make_ways};
pub use laws::moves_unsettle;
pub use moves::move_on;
