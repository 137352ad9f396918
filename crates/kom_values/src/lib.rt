//! The values of expressions.
#![tactic(auto)]

mod arithmetic;
mod expressions;
pub mod fault;
mod scope;
mod stop;

pub use arithmetic::{combine, difference, negated, product, quotient, remainder, sum};
pub use expressions::{evaluate, evaluate_all};
pub use scope::Scope;
pub use stop::Stop;

#[cfg(test)]
mod tests;
