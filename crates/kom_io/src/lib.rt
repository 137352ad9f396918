//! The outside: where texts are read from and where output goes, as traits that say what they
//! mean, with implementations over memory and over the system.
#![tactic(auto)]

mod counts;
mod memory;
mod reading;
mod shelves;
mod sinks;
mod system;
mod words;
mod writing;

pub use memory::{MemoryShelf, MemorySink};
pub use reading::{TextRead, read_text};
pub use shelves::{Got, Opened, Shelf};
pub use sinks::{Put, Sink};
pub use system::{FileShelf, OutSink};
pub use words::Words;
pub use writing::{Written, write_all_of};

#[cfg(test)]
mod tests;
