//! Tables in which the names of a system file are looked up.
#![tactic(auto, using(kom_walks::proofs::Firsts::first_append))]

mod named;
mod tables;

pub use named::{find, find_by, numbers_of, unknown};
pub use tables::{Names, Tables};
