//! An exchange: several workers apply operations to one station, one at a time, in the order in
//! which they asked. Each worker has a seat, and each answer is the station's for all that the seat
//! has seen by then.
#![tactic(auto)]

mod begin;
mod calls;
mod close;
mod exchange;
mod plays;
mod rule;
mod view;

pub use begin::Begun;
pub use close::Shut;
pub use exchange::{Exchange, Seat};
pub use rule::Turns;
pub use view::{About, Own, Stage, View};
