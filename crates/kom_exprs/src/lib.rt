//! Reads expressions of system files.
#![tactic(auto)]

mod expr;
mod names;
mod numbers;
mod operators;

pub use expr::read_expr;
pub use names::read_name;
pub use numbers::read_int;

#[cfg(test)]
mod tests;
