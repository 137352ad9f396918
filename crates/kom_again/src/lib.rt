//! The law that the canonical text of a system of a file is read again as that system; there is no
//! code.
#![tactic(auto)]

mod law;

pub use law::printed_is_read;
