//! A cursor over the tokens of a text, and the laws by which a reader made of it is exact.
#![tactic(auto)]

mod numeral;
mod reader;
mod stop;

pub use numeral::{Numeral, WordAt};
pub use reader::Reader;
pub use stop::Stop;

#[cfg(test)]
mod tests;
