//! The environment of a run: its clock, the raises of the plan, timers and messages.
#![tactic(auto)]

mod agenda;
mod calendar;
mod env;
mod few;
mod keys;
mod service;
#[cfg(test)]
mod tests;

pub use agenda::{Agenda, Wait};
pub use calendar::Calendar;
pub use env::Env;
pub use few::Few;
pub use keys::{Due, Place, Tag};
pub use service::Service;
