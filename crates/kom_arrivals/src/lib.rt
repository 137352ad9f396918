//! The rules of system files that look event types up: what may arrive at a port and leave by it,
//! and the attributes of events.
#![tactic(auto, using(kom_walks::proofs::Firsts::first_append))]

mod attributes;
mod handlers;
mod leaving;
mod selectors;
mod typed;

pub use attributes::{lacked, miscounted};
pub use handlers::wrong_handlers;
pub use leaving::kept_inside;
pub use selectors::wrong_tests;
