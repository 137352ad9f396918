//! Reads system files: from the bytes of a text to its syntax tree.
#![tactic(auto)]

mod decls;
mod file;
mod growth;
mod text;

pub use text::{PartsRead, read_parts};

#[cfg(test)]
mod tests;
