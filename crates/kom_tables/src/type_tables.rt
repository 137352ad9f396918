ghost use Rattle.std.specs.Prelude.{IfOk};
ghost use Rattle.kom_tables.specs.Typed.{AreTypes};

use crate::event_table::EventTable;
use crate::port_table::PortTable;
use kom_system::Parts;
use std::alloc::{AllocError, Global};

/// The event types and the port types of a file.
#[derive(Drop)]
pub struct TypeTables {
    pub events: EventTable,
    pub ports: PortTable,
}

impl TypeTables {
    /// The types of a file. The error is want of memory.
    pub fn of(alloc: Global, parts: &Parts) -> Result<TypeTables, AllocError>
        ensures { IfOk result (λ tables. AreTypes tables parts.now) }
    {
        let events = EventTable::of(alloc, parts)?;
        let ports = PortTable::of(alloc, parts, &events)?;
        Ok(TypeTables { events, ports })
    }
}
