//! The first place of which something is said, over lists, expressions and the statements of
//! handlers.
#![tactic(auto)]

mod expressions;
mod handlings;
mod places;
mod scopes;
mod statements;

pub use expressions::{OfNames, first_in_expressions};
pub use handlings::{OfHandling, first_of_statements};
pub use places::{Of, Tries, at_if, earlier, first_of, try_first_of};
pub use scopes::{InScope, first_in_scope};
pub use statements::{OfStatement, first_in_block};
