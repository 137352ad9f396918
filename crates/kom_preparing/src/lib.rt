//! What the end of a handling needs, worked out with all room before anything changes.
#![tactic(auto)]

mod laws;
mod prepared;
mod preparing;
mod reserve;
mod sets;
mod woken;
mod working;

pub use laws::spacious_runs_stand;
pub use prepared::Prepared;
pub use preparing::prepare;
