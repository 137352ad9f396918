//! The law that the canonical text of the system of a syntax tree is the text of the tokens with which
//! the tree is written; there is no code.
#![tactic(auto)]

mod law;

pub use law::canonical_is_written;
