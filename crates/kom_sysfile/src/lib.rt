//! System files: from the bytes of a text to the checked system.
#![tactic(auto)]

mod text;
mod tree;

pub use text::{SystemRead, read_system};
pub use tree::{Checked, check};

#[cfg(test)]
mod tests;
