//! A map in the order of its keys and a queue, whose changes take no memory once room was reserved.
#![tactic(auto)]

mod fifo;
mod ordered;
mod tree;

pub use fifo::Fifo;
pub use ordered::Ordered;
pub use tree::{Freed, Node, Tree};
