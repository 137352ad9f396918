//! The rules of system files on the trees that component types make of their typed slots.
#![tactic(auto)]

mod below;
mod children;
mod containers;
mod sizes;

pub use containers::{own_containers, too_large};
