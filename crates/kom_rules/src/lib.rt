//! The rules that a system file must keep beside its grammar: for each rule the places at which
//! a syntax tree breaks it.
#![tactic(auto)]

mod examples;

pub use examples::small_files;
