//! A run as it is kept, and the calls of a station that take an item and tell what there is to do.
#![tactic(auto)]

mod counts;
mod items;
mod lefts;
mod run;
mod runnable;
mod takes;

pub use counts::Counts;
pub use lefts::Left;
pub use run::{Held, Run};
pub use runnable::is_runnable;
