//! The rules of system files by their numbers.
#![tactic(auto)]

mod reported;
mod rules;

pub use reported::{Broken, first_broken};
pub use rules::{first_place_of, is_known};

#[cfg(test)]
mod tests;
