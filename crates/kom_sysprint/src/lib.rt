//! The canonical text of a system, and what an upgrade leaves as it is.
#![tactic(auto)]

mod examples;
mod exprs;
mod handlers;
mod kinds;
mod lists;
mod names;
mod print;
mod stmts;
mod types;
mod upgrading;
mod words;

pub use examples::{each_form, smallest, smallest_upgraded};
pub use print::print_system;
pub use upgrading::{same_plans, same_records, same_texts};
