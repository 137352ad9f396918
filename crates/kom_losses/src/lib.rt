//! How many events wait in the channels that end with a component.
#![tactic(auto)]

mod laws;
mod own;
mod tree;

pub use laws::wires_are_counted;
pub use own::waiting_own;
pub use tree::waiting_under;
