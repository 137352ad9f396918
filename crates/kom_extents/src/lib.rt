//! How many components the effects of a handling mark, worked out before anything changes.
#![tactic(auto)]

mod laws;
mod marks;

pub use laws::children_are_in_slots;
pub use marks::marks_needed;
