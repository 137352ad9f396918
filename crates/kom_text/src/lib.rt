//! The tokens of a text, and the line and column of a byte.
#![tactic(auto)]

mod law;
mod lexer;
mod number;
mod piece;
mod place;
mod token;

pub use law::{cuts_once, ends_stuck};
pub use lexer::tokens;
pub use number::number_value;
pub use place::place_of;
pub use token::{Token, TokenKind, Tokens};

#[cfg(test)]
mod tests;
