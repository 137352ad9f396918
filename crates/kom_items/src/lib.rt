//! Reads the declarations of a component type.
#![tactic(auto)]

mod channels;
mod children;
mod handlers;
mod items;
mod words;

pub use children::read_child;
pub use items::read_item;

#[cfg(test)]
mod tests;
