//! The creation of components: a tree of instances with their first bodies, control items and
//! channels, and the state of a run at its opening.
#![tactic(auto)]

mod beginning;
mod brood;
mod growing;
mod laws;
mod linking;
mod rooms;
mod seed;
mod seeding;
mod sprout;

pub use beginning::begin;
pub use brood::Brood;
pub use laws::{creations_are_sown, openings_are_sown, rooms_are_left, rooms_are_shared};
pub use seed::Seed;
pub use sprout::{Seat, Sprout};
