//! The system that the syntax tree of a system file stands for: names that are used become numbers.
#![tactic(auto)]

mod all;
mod blocks;
mod flat;
mod handling;
mod kinds;
mod numbers;
mod site;
mod system;
mod types;

pub use system::resolve;
