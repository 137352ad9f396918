//! The tokens with which a syntax tree is written, and the law that they spell the tree again but for
//! its places; there is no code.
#![tactic(auto)]

mod law;

pub use law::files_again;
