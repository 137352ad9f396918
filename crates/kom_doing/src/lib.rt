//! The effects of a handling in the state of a run, one after another.
#![tactic(auto)]

mod all;
mod laws;
mod one;
mod reserve;

pub use all::do_effects;
pub use laws::{effects_go_on, effects_may_be_done, room_is_left};
pub use one::do_effect;
pub use reserve::reserve_effects;
