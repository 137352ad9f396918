//! The answer of a gathering.

use crate::lots::{Lot, ReadySet};
use kom_base::Comp;

/// The answer of [`ReadySet::gather`].
pub enum Gathered {
    /// What was left.
    Left(Vec<Comp>),
    /// Want of memory; nothing was moved.
    Memory(ReadySet, Vec<Lot>),
}
