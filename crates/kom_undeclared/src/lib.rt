//! The rule that each name of a system file is declared as what its place needs.
#![tactic(auto, using(kom_walks::proofs::Firsts::first_append))]

mod file;
mod site;
mod unknown;

pub use unknown::undeclared;
