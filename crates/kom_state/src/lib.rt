//! The state of a run: its instances, its channels and what waits in them, its control items and
//! its bodies, as one value that changes by the steps of an entry.
#![tactic(auto)]

mod aims;
mod bodies;
mod catching;
mod cutting;
mod laws;
mod laying;
mod opening;
mod state;

pub use bodies::Bodies;
pub use laws::{channels_are_numbered, numbers_stay};
pub use state::RunState;
