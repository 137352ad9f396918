use kom_lang::Birth;

/// A slot of an instance.
#[derive(Clone, Copy, Debug, PartialEq, Eq)]
pub struct Seat {
    /// The number of the instance.
    pub comp: u64,
    /// The number of the slot, from 0.
    pub slot: u8,
}

/// An instance that is to be created: its component type, what it is created from, the slot of its
/// parent in which it is created, none for the root, and its depth; the root has depth 1.
#[derive(Debug, Drop)]
pub struct Sprout {
    pub kind: u16,
    pub birth: Birth,
    pub seat: Option<Seat>,
    pub depth: u8,
}
