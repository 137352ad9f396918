//! The instances that a creation makes, in order of number.
#![tactic(auto)]

mod nodes;
mod planting;

pub use nodes::{Node, SlotOf};
pub use planting::tree_of;
