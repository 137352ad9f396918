//! What the living instances have besides their bodies: the control items that wait for each, and
//! whether it is active and handles faults; and who is told of a fault.
#![tactic(auto)]

mod life;
mod row;

pub use life::Life;
pub use row::Row;
