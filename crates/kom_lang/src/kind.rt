use crate::name::Name;
use crate::stmt::Handlers;
use kom_base::{Copied, Values};
use kom_events::Selector;
use sqlite_items::Items;
use std::alloc::{AllocError, Global};

/// A port of a component type: its name, its port type, and whether it is provided or required.
#[derive(Debug, Drop)]
pub struct PortDecl {
    pub name: Name,
    pub port: u16,
    pub provided: bool,
}

/// A variable with its first value.
#[derive(Debug, Drop)]
pub struct VarDecl {
    pub name: Name,
    pub first: i64,
}

/// A component type with the arguments of its init handler.
#[derive(Debug, Drop)]
pub struct Child {
    pub kind: u16,
    pub args: Values,
}

/// A slot. One with a child is filled when its component is created.
#[derive(Debug, Drop)]
pub struct SlotDecl {
    pub name: Name,
    pub child: Option<Child>,
}

/// Where an end of a channel is plugged: at the inside of a port of the component itself, where
/// there is no slot, else at the outside of a port of the child in the slot.
#[derive(Clone, Copy, Debug, PartialEq, Eq)]
pub struct Place {
    pub slot: Option<u8>,
    pub port: u8,
}

/// A channel with its port type, its first ends, of which `None` is free, and its selectors: what
/// it lets pass from the plus end to the minus end, and back.
#[derive(Debug, Drop)]
pub struct ChannelDecl {
    pub name: Name,
    pub port: u16,
    pub plus: Option<Place>,
    pub minus: Option<Place>,
    pub plus_when: Selector,
    pub minus_when: Selector,
}

pub type PortDecls = Items<PortDecl>;

pub type VarDecls = Items<VarDecl>;

pub type SlotDecls = Items<SlotDecl>;

pub type ChannelDecls = Items<ChannelDecl>;

/// A component type. Each list is in order of declaration, and its members are numbered by their
/// places, from 0.
#[derive(Drop)]
pub struct Kind {
    pub name: Name,
    pub ports: PortDecls,
    pub vars: VarDecls,
    pub slots: SlotDecls,
    pub channels: ChannelDecls,
    pub handlers: Handlers,
}

impl Copied for PortDecl {
    fn copy(&self, alloc: Global) -> Result<PortDecl, AllocError> {
        Ok(PortDecl {
            name: self.name.copy(alloc)?,
            port: self.port,
            provided: self.provided,
        })
    }
}

impl Copied for VarDecl {
    fn copy(&self, alloc: Global) -> Result<VarDecl, AllocError> {
        Ok(VarDecl {
            name: self.name.copy(alloc)?,
            first: self.first,
        })
    }
}

impl Copied for Child {
    fn copy(&self, alloc: Global) -> Result<Child, AllocError> {
        Ok(Child {
            kind: self.kind,
            args: self.args.copy(alloc)?,
        })
    }
}

impl Copied for SlotDecl {
    fn copy(&self, alloc: Global) -> Result<SlotDecl, AllocError> {
        Ok(SlotDecl {
            name: self.name.copy(alloc)?,
            child: self.child.copy(alloc)?,
        })
    }
}

impl Copied for Place {
    fn copy(&self, _alloc: Global) -> Result<Place, AllocError> {
        Ok(*self)
    }
}

impl Copied for ChannelDecl {
    fn copy(&self, alloc: Global) -> Result<ChannelDecl, AllocError> {
        Ok(ChannelDecl {
            name: self.name.copy(alloc)?,
            port: self.port,
            plus: self.plus,
            minus: self.minus,
            plus_when: self.plus_when.copy(alloc)?,
            minus_when: self.minus_when.copy(alloc)?,
        })
    }
}

impl Copied for Kind {
    fn copy(&self, alloc: Global) -> Result<Kind, AllocError> {
        Ok(Kind {
            name: self.name.copy(alloc)?,
            ports: self.ports.copy(alloc)?,
            vars: self.vars.copy(alloc)?,
            slots: self.slots.copy(alloc)?,
            channels: self.channels.copy(alloc)?,
            handlers: self.handlers.copy(alloc)?,
        })
    }
}
