//! Laws of what does not depend on the places of a syntax tree; there is no code.
#![tactic(auto)]

mod law;

pub use law::{same_clashes, same_rules, same_value};
