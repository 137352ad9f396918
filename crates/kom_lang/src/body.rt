use crate::kind::Place;
use kom_base::{Copied, Dir, Event, Values};
use sqlite_items::Items;
use std::alloc::{AllocError, Global};

/// The subscribed handlers of a component, by number, in order of subscription.
pub type Subs = Items<u8>;

/// For each slot the type of the child in it, or none.
pub type Slots = Items<Option<u16>>;

/// For each channel of a component its state.
pub type Wires = Items<Wire>;

/// The effects of a handling, in order.
pub type Effects = Items<Effect>;

/// A channel as its component knows it: whether it is held, and where its ends are plugged.
#[derive(Clone, Copy, Debug, PartialEq, Eq)]
pub struct Wire {
    pub held: bool,
    pub plus: Option<Place>,
    pub minus: Option<Place>,
}

/// What a component is between two handlings.
#[derive(Debug, Drop)]
pub struct Body {
    /// Its component type.
    pub kind: u16,
    pub vars: Values,
    pub subs: Subs,
    pub slots: Slots,
    pub wires: Wires,
    /// How many components lead from the root to it, both counted: the root has depth 1.
    pub depth: u8,
    /// Whether it handles events.
    pub active: bool,
    /// Whether it may be started.
    pub initialised: bool,
}

/// What a component is created from: the arguments of its init handler, or the variables of
/// another component.
#[derive(Debug, Drop)]
pub enum Birth {
    Args(Values),
    State(Values),
}

/// What a handling does beside the change of its own component.
#[derive(Debug, Drop)]
pub enum Effect {
    Trigger { port: u8, event: Event },
    Answer { event: Event },
    Create { slot: u8, kind: u16, birth: Birth },
    Start(u8),
    Stop(u8),
    Destroy(u8),
    Dump(u8),
    Hold(u8),
    Resume(u8),
    Unplug { wire: u8, end: Dir },
    Plug { wire: u8, end: Dir, place: Place },
    Escalate,
}

impl Copied for Wire {
    fn copy(&self, _alloc: Global) -> Result<Wire, AllocError> {
        Ok(*self)
    }
}

impl Copied for Body {
    fn copy(&self, alloc: Global) -> Result<Body, AllocError> {
        Ok(Body {
            kind: self.kind,
            vars: self.vars.copy(alloc)?,
            subs: self.subs.copy(alloc)?,
            slots: self.slots.copy(alloc)?,
            wires: self.wires.copy(alloc)?,
            depth: self.depth,
            active: self.active,
            initialised: self.initialised,
        })
    }
}

impl Copied for Birth {
    fn copy(&self, alloc: Global) -> Result<Birth, AllocError> {
        match self {
            Birth::Args(values) => Ok(Birth::Args(values.copy(alloc)?)),
            Birth::State(values) => Ok(Birth::State(values.copy(alloc)?)),
        }
    }
}

impl Copied for Effect {
    fn copy(&self, alloc: Global) -> Result<Effect, AllocError> {
        match self {
            Effect::Trigger { port, event } => Ok(Effect::Trigger {
                port: *port,
                event: event.copy(alloc)?,
            }),
            Effect::Answer { event } => Ok(Effect::Answer {
                event: event.copy(alloc)?,
            }),
            Effect::Create { slot, kind, birth } => Ok(Effect::Create {
                slot: *slot,
                kind: *kind,
                birth: birth.copy(alloc)?,
            }),
            Effect::Start(slot) => Ok(Effect::Start(*slot)),
            Effect::Stop(slot) => Ok(Effect::Stop(*slot)),
            Effect::Destroy(slot) => Ok(Effect::Destroy(*slot)),
            Effect::Dump(slot) => Ok(Effect::Dump(*slot)),
            Effect::Hold(wire) => Ok(Effect::Hold(*wire)),
            Effect::Resume(wire) => Ok(Effect::Resume(*wire)),
            Effect::Unplug { wire, end } => Ok(Effect::Unplug {
                wire: *wire,
                end: *end,
            }),
            Effect::Plug { wire, end, place } => Ok(Effect::Plug {
                wire: *wire,
                end: *end,
                place: *place,
            }),
            Effect::Escalate => Ok(Effect::Escalate),
        }
    }
}
