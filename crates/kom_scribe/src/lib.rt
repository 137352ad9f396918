//! What is known of the instances of a record, and the text of entries by it.
#![tactic(auto)]

mod draft;
mod effects;
mod entries;
mod following;
mod known;

pub use draft::{Change, Draft};
pub use effects::add_effect;
pub use entries::add_entry;
pub use following::add_effects;
pub use known::Known;

#[cfg(test)]
mod tests;
