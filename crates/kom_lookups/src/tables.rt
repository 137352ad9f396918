ghost use Rattle.std.specs.Prelude.{IfOk};
ghost use Rattle.kom_lookups.specs.Tabled.{HasNames, AllHaveNames, AreTables};

use crate::named::numbers_of;
use kom_names::Numbers;
use kom_system::{ComponentPart, Parts};
use sqlite_items::Items;
use std::alloc::{AllocError, Global};

/// The numbers of the names in a component type, for each kind of declaration from 0.
#[derive(Drop)]
pub struct Names {
    pub ports: Numbers,
    pub vars: Numbers,
    pub slots: Numbers,
    pub channels: Numbers,
    pub handlers: Numbers,
}

impl Names {
    /// The numbers of the names in a component type. The error is want of memory.
    pub fn of(alloc: Global, part: &ComponentPart) -> Result<Names, AllocError>
        ensures { IfOk result (λ names. HasNames names part.now) }
    {
        Ok(Names {
            ports: numbers_of(alloc, part.ports.as_slice())?,
            vars: numbers_of(alloc, part.vars.as_slice())?,
            slots: numbers_of(alloc, part.slots.as_slice())?,
            channels: numbers_of(alloc, part.channels.as_slice())?,
            handlers: numbers_of(alloc, part.handlers.as_slice())?,
        })
    }
}

/// The numbers of the declared names of a file, for each kind from 0, and those in each component
/// type.
#[derive(Drop)]
pub struct Tables {
    pub events: Numbers,
    pub port_types: Numbers,
    pub components: Numbers,
    pub inside: Items<Names>,
}

impl Tables {
    /// The numbers of the names of a file. The error is want of memory.
    pub fn of(alloc: Global, parts: &Parts) -> Result<Tables, AllocError>
        ensures { IfOk result (λ tables. AreTables tables parts.now) }
    {
        Ok(Tables {
            events: numbers_of(alloc, parts.events.as_slice())?,
            port_types: numbers_of(alloc, parts.ports.as_slice())?,
            components: numbers_of(alloc, parts.components.as_slice())?,
            inside: names_inside(alloc, parts.components.as_slice())?,
        })
    }
}

/// The numbers of the names in each of some component types.
fn names_inside(alloc: Global, parts: &[ComponentPart]) -> Result<Items<Names>, AllocError>
    ensures { IfOk result (λ inside. AllHaveNames inside parts.now) }
{
    let mut inside = Items::new(alloc);
    for part in parts {
        inside.push(Names::of(alloc, part)?)?;
    }
    Ok(inside)
}
