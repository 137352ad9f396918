//! The names that a system file declares, and those that it declares twice.
#![tactic(auto, using(kom_walks::proofs::Firsts::first_append, crate::proofs::Noted::flat_map_over))]

mod clashes;
mod declares;
mod twice;

pub use declares::{Declares, note_all};
pub use twice::{declared_twice, is_built_in_event, is_built_in_port};
