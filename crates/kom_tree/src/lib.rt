//! The tree of instances: who is whose parent, who sits in which slot, and who is alive.
#![tactic(auto)]

mod family;
mod fell;
mod tree;

pub use tree::Tree;
