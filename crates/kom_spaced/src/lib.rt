//! Tokens written one after another, each with a blank behind it, and the law that such a text is
//! read as these tokens; there is no code.
#![tactic(auto)]

mod law;

pub use law::spaced_is_read;
