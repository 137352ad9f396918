//! A crew: several workers drive one station to its end, each in a thread of its own.
#![tactic(auto)]

mod closing;
mod crew;
mod driving;
mod run;
mod seating;
mod step;
mod worker;
mod working;

pub use run::{Counted, Crewed, run_crew, run_crew_counted};
