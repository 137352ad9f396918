//! The effects of a handling on channels and instances, each as one change of the state with the
//! marks of the components whose work it may change.
#![tactic(auto)]

mod creating;
mod laws;
mod relinks;
mod removing;

pub use creating::create;
pub use laws::{ends_are_at_created, others_are_kept};
pub use relinks::{hold, plug, resume, unplug};
pub use removing::{count_below, destroy};
