//! What all formats of files have in common: the rules 2 to 5, and the header of a text.
#![tactic(auto)]

mod file;
mod header;

pub use file::{FileRead, place_at, place_of_next};
pub use header::read_header;
