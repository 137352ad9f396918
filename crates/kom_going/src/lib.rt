//! What goes out by an entry is given to the environment, with room that was made before.
#![tactic(auto)]

mod going;

pub use going::absorb_all;
