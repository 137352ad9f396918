ghost use Rattle.std.specs.Prelude.{◌≡◌, IfOk};

use crate::expr::{Expr, Exprs};
use crate::name::{Name, Names};
use kom_base::{Copied, Dir};
use sqlite_items::Items;
use std::alloc::{AllocError, Global};

/// Where `plug` puts a channel's end.
#[derive(Debug, Drop)]
pub enum Target {
    /// The port of the component itself with this number.
    Own(u8),
    /// The port of that name of the child in a slot.
    Child { slot: u8, port: Name },
}

/// The statements of a block, in order. Contracts see the list.
pub type Block = Items<Stmt>;

/// A statement. Variables, slots, channels, ports and handlers of the component type, event types
/// and component types stand by their numbers.
#[derive(Drop)]
pub enum Stmt {
    /// Adds a name to the scope.
    Let {
        name: Name,
        value: Expr,
    },
    SetVar {
        index: u8,
        value: Expr,
    },
    SetLocal {
        index: u32,
        value: Expr,
    },
    If {
        test: Expr,
        block: Block,
        other: Option<Block>,
    },
    While {
        test: Expr,
        block: Block,
    },
    Trigger {
        kind: u16,
        values: Exprs,
        port: u8,
    },
    /// Answers the event in hand.
    Answer {
        kind: u16,
        values: Exprs,
    },
    Create {
        slot: u8,
        kind: u16,
        args: Exprs,
    },
    /// Creates a component whose variables are the state that the dumped item carries.
    CreateFromState {
        slot: u8,
        kind: u16,
    },
    Start(u8),
    Stop(u8),
    Destroy(u8),
    Dump(u8),
    Hold(u8),
    Resume(u8),
    Unplug {
        wire: u8,
        end: Dir,
    },
    Plug {
        wire: u8,
        end: Dir,
        target: Target,
    },
    Subscribe(u8),
    Unsubscribe(u8),
    /// Ends the handling with fault 100 and this number.
    Fail(u16),
    /// Passes the fault in hand on to the next ancestor.
    Escalate,
}

/// What a handler handles, with the names of its parameters.
#[derive(Drop)]
pub enum On {
    /// Events of a type and its subtypes that arrive from outside at a port.
    Event { kind: u16, port: u8 },
    Init(Names),
    Start,
    Stop,
    /// Faults of components below: the slot that holds the faulted component, and the fault.
    Fault { slot: Name, number: Name },
    /// The state of the child in a slot, sent by a dump.
    Dumped { slot: Name },
}

/// A handler. One that is `off` is not subscribed at first.
#[derive(Drop)]
pub struct Handler {
    pub name: Name,
    pub on: On,
    pub off: bool,
    pub block: Block,
}

/// The handlers of a component type, in order of declaration. Contracts see the list.
pub type Handlers = Items<Handler>;

impl Copied for Target {
    fn copy(&self, alloc: Global) -> Result<Target, AllocError> {
        match self {
            Target::Own(port) => Ok(Target::Own(*port)),
            Target::Child { slot, port } => Ok(Target::Child {
                slot: *slot,
                port: port.copy(alloc)?,
            }),
        }
    }
}

impl Copied for Stmt {
    fn copy(&self, alloc: Global) -> Result<Stmt, AllocError> {
        copy_statement(alloc, self)
    }
}

#[cycle(copy)]
fn copy_block(alloc: Global, block: &Block) -> Result<Block, AllocError>
    ensures { IfOk result (λ copy. copy ≡ block.now) }
{
    let mut copy = Items::new(alloc);
    for statement in block.as_slice() {
        copy.push(copy_statement(alloc, statement)?)?;
    }
    Ok(copy)
}

#[cycle(copy)]
fn copy_statement(alloc: Global, statement: &Stmt) -> Result<Stmt, AllocError>
    ensures { IfOk result (λ copy. copy ≡ statement.now) }
{
    match statement {
        Stmt::Let { name, value } => Ok(Stmt::Let {
            name: name.copy(alloc)?,
            value: value.copy(alloc)?,
        }),
        Stmt::SetVar { index, value } => Ok(Stmt::SetVar {
            index: *index,
            value: value.copy(alloc)?,
        }),
        Stmt::SetLocal { index, value } => Ok(Stmt::SetLocal {
            index: *index,
            value: value.copy(alloc)?,
        }),
        Stmt::If { test, block, other } => {
            let test = test.copy(alloc)?;
            let block = copy_block(alloc, block)?;
            let other = match other {
                Some(other) => Some(copy_block(alloc, other)?),
                None => None,
            };
            Ok(Stmt::If { test, block, other })
        }
        Stmt::While { test, block } => Ok(Stmt::While {
            test: test.copy(alloc)?,
            block: copy_block(alloc, block)?,
        }),
        Stmt::Trigger { kind, values, port } => Ok(Stmt::Trigger {
            kind: *kind,
            values: values.copy(alloc)?,
            port: *port,
        }),
        Stmt::Answer { kind, values } => Ok(Stmt::Answer {
            kind: *kind,
            values: values.copy(alloc)?,
        }),
        Stmt::Create { slot, kind, args } => Ok(Stmt::Create {
            slot: *slot,
            kind: *kind,
            args: args.copy(alloc)?,
        }),
        Stmt::CreateFromState { slot, kind } => Ok(Stmt::CreateFromState {
            slot: *slot,
            kind: *kind,
        }),
        Stmt::Start(slot) => Ok(Stmt::Start(*slot)),
        Stmt::Stop(slot) => Ok(Stmt::Stop(*slot)),
        Stmt::Destroy(slot) => Ok(Stmt::Destroy(*slot)),
        Stmt::Dump(slot) => Ok(Stmt::Dump(*slot)),
        Stmt::Hold(wire) => Ok(Stmt::Hold(*wire)),
        Stmt::Resume(wire) => Ok(Stmt::Resume(*wire)),
        Stmt::Unplug { wire, end } => Ok(Stmt::Unplug {
            wire: *wire,
            end: *end,
        }),
        Stmt::Plug { wire, end, target } => Ok(Stmt::Plug {
            wire: *wire,
            end: *end,
            target: target.copy(alloc)?,
        }),
        Stmt::Subscribe(handler) => Ok(Stmt::Subscribe(*handler)),
        Stmt::Unsubscribe(handler) => Ok(Stmt::Unsubscribe(*handler)),
        Stmt::Fail(number) => Ok(Stmt::Fail(*number)),
        Stmt::Escalate => Ok(Stmt::Escalate),
    }
}

impl Copied for On {
    fn copy(&self, alloc: Global) -> Result<On, AllocError> {
        match self {
            On::Event { kind, port } => Ok(On::Event {
                kind: *kind,
                port: *port,
            }),
            On::Init(names) => Ok(On::Init(names.copy(alloc)?)),
            On::Start => Ok(On::Start),
            On::Stop => Ok(On::Stop),
            On::Fault { slot, number } => Ok(On::Fault {
                slot: slot.copy(alloc)?,
                number: number.copy(alloc)?,
            }),
            On::Dumped { slot } => Ok(On::Dumped {
                slot: slot.copy(alloc)?,
            }),
        }
    }
}

impl Copied for Handler {
    fn copy(&self, alloc: Global) -> Result<Handler, AllocError> {
        Ok(Handler {
            name: self.name.copy(alloc)?,
            on: self.on.copy(alloc)?,
            off: self.off,
            block: self.block.copy(alloc)?,
        })
    }
}
