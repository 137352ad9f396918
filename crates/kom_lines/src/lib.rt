//! The text of a trace, piece by piece: words, numbers, names, items, outcomes and releases.
#![tactic(auto)]

mod items;
mod lines;
mod names;
mod text;

pub use items::{add_event, add_item, direction_word};
pub use lines::{add_head, add_number_or_none, add_outcome, add_releases, add_unreached};
pub use names::{Names, channel_name, port_name, slot_name};
pub use text::Text;

#[cfg(test)]
mod tests;
