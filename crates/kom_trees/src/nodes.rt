/// A slot of an instance.
#[derive(Clone, Copy, Debug, PartialEq, Eq, PartialOrd, Ord)]
pub struct SlotOf {
    /// The number of the instance.
    pub comp: u64,
    /// The number of the slot, from 0.
    pub slot: u8,
}

/// An instance: its component type, and the slot of its parent in which it is created; none for the
/// root.
#[derive(Clone, Copy, Debug, PartialEq, Eq)]
pub struct Node {
    pub kind: u16,
    pub at: Option<SlotOf>,
}
