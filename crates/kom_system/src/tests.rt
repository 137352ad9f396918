ghost use Rattle.std.specs.Prelude.{◌≡◌, [], ◌∷◌, length, map, None, IfOk};
ghost use Rattle.kom_system.specs.Fitting.{built_in_events, built_in_ports};

use crate::declared::Declared;
use crate::system::System;
use kom_base::Values;
use kom_events::{EventRow, EventTypes, Kinds, PortRow, PortTypes};
use kom_lang::{Birth, Child, Kind, Name, Names};
use sqlite_items::Items;
use std::alloc::{AllocError, Global};
use std::test::Fail;

fn row(own: u8) -> EventRow
    ensures { result ≡ record { parent = None; own = own } }
{
    EventRow { parent: None, own }
}

fn event_types(alloc: Global) -> Result<EventTypes, AllocError>
    ensures { IfOk result (λ types. types ≡ built_in_events) }
{
    let rows = [row(2), row(1), row(1), row(2)];
    EventTypes::build(alloc, &rows)
}

fn port_types(alloc: Global) -> Result<PortTypes, AllocError>
    ensures { IfOk result (λ types. types ≡ built_in_ports) }
{
    let mut rows = Vec::new(alloc);
    rows.push(PortRow {
        plus: Kinds::from_slice(alloc, &[2])?,
        minus: Kinds::from_slice(alloc, &[0, 1])?,
    })?;
    rows.push(PortRow {
        plus: Kinds::from_slice(alloc, &[3])?,
        minus: Kinds::from_slice(alloc, &[3])?,
    })?;
    PortTypes::build(alloc, rows)
}

fn names(alloc: Global, count: usize) -> Result<Names, AllocError>
    ensures { IfOk result (λ names. length names ≡ count) }
{
    let mut names = Names::new(alloc);
    for _ in 0..count {
        names.push(Name::of(alloc, b"name")?)?;
    }
    Ok(names)
}

fn attr_names(alloc: Global) -> Result<Items<Names>, AllocError>
    ensures { IfOk result (λ lists. map length lists ≡ 2 ∷ 1 ∷ 1 ∷ 2 ∷ []) }
{
    let mut lists = Items::new(alloc);
    lists.push(names(alloc, 2)?)?;
    lists.push(names(alloc, 1)?)?;
    lists.push(names(alloc, 1)?)?;
    lists.push(names(alloc, 2)?)?;
    Ok(lists)
}

/// A component type with nothing in it.
fn empty_kind(alloc: Global) -> Result<Kind, AllocError>
    ensures { IfOk result (λ kind. kind ≡ record { name = kind.name; ports = []; vars = []; slots = []; channels = []; handlers = [] }) }
{
    Ok(Kind {
        name: Name::of(alloc, b"Main")?,
        ports: Items::new(alloc),
        vars: Items::new(alloc),
        slots: Items::new(alloc),
        channels: Items::new(alloc),
        handlers: Items::new(alloc),
    })
}

fn smallest(alloc: Global) -> Result<System, AllocError> {
    let mut kinds = Items::new(alloc);
    kinds.push(empty_kind(alloc)?)?;
    let declared = Declared {
        event_types: event_types(alloc)?,
        event_names: names(alloc, 4)?,
        attr_names: attr_names(alloc)?,
        port_types: port_types(alloc)?,
        port_names: names(alloc, 2)?,
        kinds,
        root: Child {
            kind: 0,
            args: Values::new(alloc),
        },
        version: 1,
    };
    System::from_declared(alloc, declared)
}

#[test]
fn reads_the_smallest_system(rt: HostRuntime) -> Result<(), Fail> {
    let system = smallest(rt.alloc())?;
    assert_eq!(rt; system.version(), 1);
    assert_eq!(rt; system.kinds(), 1);
    assert_eq!(rt; system.root().kind, 0);
    assert!(rt; system.kinds() > 0);
    assert_eq!(rt; system.height(0), 1);
    assert_eq!(rt; system.kind(0).ports.len(), 0);
    assert_eq!(rt; system.upgrade().version(), 2);
    Ok(())
}

#[test]
fn makes_a_first_body(rt: HostRuntime) -> Result<(), Fail> {
    let system = smallest(rt.alloc())?;
    let birth = Birth::Args(Values::new(rt.alloc()));
    assert!(rt; system.kinds() > 0);
    let body = system.body_of(rt.alloc(), 0, &birth, 1)?;
    assert_eq!(rt; body.depth, 1);
    assert!(rt; body.initialised && !body.active);
    Ok(())
}
