//! The grammar of system files: which tokens spell which syntax tree, by cases and in no order of
//! reading.
#![tactic(auto)]

mod example;
mod items;

pub use example::smallest_file;
pub use items::{DeclPart, ItemPart};
