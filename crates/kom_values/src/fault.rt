//! The numbers of the faults that end a handling.

/// A division, or a remainder, by zero.
pub const DIVISION_BY_ZERO: u16 = 1;

/// A value that is no signed number of 64 bits.
pub const OVERFLOW: u16 = 2;

/// Turn number 10,001 of the loops of a handling.
pub const TOO_MANY_TURNS: u16 = 3;

/// Effect number 33 of a handling.
pub const TOO_MANY_EFFECTS: u16 = 4;

/// A component is created in a slot that is taken.
pub const SLOT_TAKEN: u16 = 5;

/// There is no component in the slot.
pub const SLOT_EMPTY: u16 = 6;

/// An end of a channel is plugged at the component in the slot.
pub const SLOT_PLUGGED: u16 = 7;

/// The channel is not held.
pub const NOT_HELD: u16 = 8;

/// The end is plugged already.
pub const END_TAKEN: u16 = 9;

/// The end is plugged nowhere.
pub const END_FREE: u16 = 10;

/// The component has no port of that name at which the end may be plugged.
pub const WRONG_PORT: u16 = 11;

/// A state has another number of values than the type has variables.
pub const WRONG_STATE: u16 = 12;

/// The tree of the component would be deeper than 16.
pub const TOO_DEEP: u16 = 13;

/// What `fail n` adds to its number.
pub const FAILED: u16 = 100;
