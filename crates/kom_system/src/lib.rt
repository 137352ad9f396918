//! Systems: the syntax tree of a system file, and the checked value without places.
#![tactic(auto)]

mod birth;
mod declared;
mod heights;
mod parts;
mod system;

pub use declared::Declared;
pub use parts::{
    ChannelPart, ChannelParts, ChildPart, ComponentPart, ComponentParts, EndPart, EventPart,
    EventParts, ExprPart, ExprParts, HandlerPart, HandlerParts, OnPart, Parts, PortPart, PortParts,
    PortTypePart, PortTypeParts, RootPart, RootParts, SlotPart, SlotParts, Spot, Spots, StmtPart,
    StmtParts, TargetPart, TestPart, TestParts, VarPart, VarParts,
};
pub use system::System;

#[cfg(test)]
mod tests;
