//! The text of a trace: a scribe that writes it entry by entry, and a call that writes it whole.
#![tactic(auto)]

mod counts;
mod ends;
mod scribe;
mod writing;

pub use counts::{Counts, count_all};
pub use ends::{add_end, add_end_lines};
pub use scribe::Scribe;
pub use writing::{Traced, write_trace};

#[cfg(test)]
mod tests;
