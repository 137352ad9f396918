//! A set of components in order of number, whose changes take no memory once room was made.
#![tactic(auto)]

mod comps;

pub use comps::Comps;
