//! Laws of the names of each space of a syntax tree, of which none comes twice where the tree of a text
//! breaks no rule; there is no code.
#![tactic(auto)]

mod law;

pub use law::{accepted_are_apart, apart_are_once};
