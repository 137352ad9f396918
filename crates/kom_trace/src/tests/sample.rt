ghost use Rattle.std.specs.Prelude.{◌≡◌, [], ◌∷◌, length, map, None, IfOk};
ghost use Rattle.kom_system.specs.Fitting.{built_in_events, built_in_ports};

use kom_base::Values;
use kom_events::{EventRow, EventTypes, Kinds, PortRow, PortTypes};
use kom_lang::{Child, Kind, Name, Names};
use kom_system::{Declared, System};
use sqlite_items::Items;
use std::alloc::{AllocError, Global};

fn row(own: u8) -> EventRow
    ensures { result ≡ record { parent = None; own = own } }
{
    EventRow { parent: None, own }
}

fn event_types(alloc: Global) -> Result<EventTypes, AllocError>
    ensures { IfOk result (λ types. types ≡ built_in_events) }
{
    let rows = [row(2), row(1), row(1), row(2)];
    EventTypes::build(alloc, &rows)
}

fn port_types(alloc: Global) -> Result<PortTypes, AllocError>
    ensures { IfOk result (λ types. types ≡ built_in_ports) }
{
    let mut rows = Vec::new(alloc);
    rows.push(PortRow {
        plus: Kinds::from_slice(alloc, &[2])?,
        minus: Kinds::from_slice(alloc, &[0, 1])?,
    })?;
    rows.push(PortRow {
        plus: Kinds::from_slice(alloc, &[3])?,
        minus: Kinds::from_slice(alloc, &[3])?,
    })?;
    PortTypes::build(alloc, rows)
}

fn names(alloc: Global, count: usize) -> Result<Names, AllocError>
    ensures { IfOk result (λ names. length names ≡ count) }
{
    let mut names = Names::new(alloc);
    for _ in 0..count {
        names.push(Name::of(alloc, b"name")?)?;
    }
    Ok(names)
}

fn attr_names(alloc: Global) -> Result<Items<Names>, AllocError>
    ensures { IfOk result (λ lists. map length lists ≡ 2 ∷ 1 ∷ 1 ∷ 2 ∷ []) }
{
    let mut lists = Items::new(alloc);
    lists.push(names(alloc, 2)?)?;
    lists.push(names(alloc, 1)?)?;
    lists.push(names(alloc, 1)?)?;
    lists.push(names(alloc, 2)?)?;
    Ok(lists)
}

/// A component type with nothing in it.
fn empty_kind(alloc: Global) -> Result<Kind, AllocError>
    ensures { IfOk result (λ kind. kind ≡ record { name = kind.name; ports = []; vars = []; slots = []; channels = []; handlers = [] }) }
{
    Ok(Kind {
        name: Name::of(alloc, b"Main")?,
        ports: Items::new(alloc),
        vars: Items::new(alloc),
        slots: Items::new(alloc),
        channels: Items::new(alloc),
        handlers: Items::new(alloc),
    })
}

/// A system with one component type, which has nothing.
pub fn smallest(alloc: Global) -> Result<System, AllocError> {
    let mut kinds = Items::new(alloc);
    kinds.push(empty_kind(alloc)?)?;
    let declared = Declared {
        event_types: event_types(alloc)?,
        event_names: names(alloc, 4)?,
        attr_names: attr_names(alloc)?,
        port_types: port_types(alloc)?,
        port_names: names(alloc, 2)?,
        kinds,
        root: Child {
            kind: 0,
            args: Values::new(alloc),
        },
        version: 1,
    };
    System::from_declared(alloc, declared)
}
