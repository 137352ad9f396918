//! Reads statements and blocks of system files.
#![tactic(auto)]

mod keywords;
mod lists;
mod places;
mod stmt;

pub use keywords::read_direction;
pub use lists::{read_exprs, read_names};
pub use places::read_target;
pub use stmt::read_block;

#[cfg(test)]
mod tests;
