//! The rules of system files that need no look-up of names.
#![tactic(auto, using(kom_walks::proofs::Firsts::first_append))]

mod handlings;
mod limits;
mod many;

pub use handlings::{
    answered_outside, escalated_outside, fault_too_large, it_outside, state_outside,
};
pub use limits::too_many;
pub use many::{many_tests, second_inits, wrong_parents, wrong_roots};
