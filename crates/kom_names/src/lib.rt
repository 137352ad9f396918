//! Lists of names in which a name is found without a walk through the list.
#![tactic(auto)]

mod earliest;
mod name_set;
mod numbers;

pub use earliest::Earliest;
pub use name_set::NameSet;
pub use numbers::Numbers;

#[cfg(test)]
mod tests;
