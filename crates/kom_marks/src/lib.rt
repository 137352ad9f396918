//! The marks of the components that a step may touch, and who of them is woken.
#![tactic(auto)]

mod laws;
mod marks;
mod settles;

pub use laws::{marks_add_up, marks_are_few, marks_stay, settled_stands, unmarked_stay};
pub use marks::mark;
pub use settles::settle;
