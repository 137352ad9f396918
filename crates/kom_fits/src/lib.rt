//! The rules of system files that look declarations up: counts of arguments, the ends of channels,
//! and what subscribes and plugs.
#![tactic(auto, using(kom_walks::proofs::Firsts::first_append))]

mod counts;
mod ends;
mod handlings;
mod named;

pub use counts::wrong_counts;
pub use ends::{untyped_ends, wrong_signs, wrong_types};
pub use handlings::{misplugged, subscribed_init};
pub use named::{
    arity, channel_named, component_named, handler_named, port_named, slot_named, type_in,
};
