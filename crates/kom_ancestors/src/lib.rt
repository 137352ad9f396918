//! The rules of system files on the ancestors of event types: that no type is its own ancestor, and
//! that none has too many attributes or two of one name, inherited ones included.
#![tactic(auto)]

mod ancestors;
mod attributes;
mod marks;
mod passed;
mod steps;

pub use ancestors::own_ancestors;
pub use attributes::wrong_attributes;
