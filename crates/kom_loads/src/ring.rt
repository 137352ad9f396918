ghost use Rattle.std.specs.Prelude.{◌≡◌, [], ◌∷◌, length, map, None, true, false, IfOk};
ghost use Rattle.kom_system.specs.Contents.{Contents};
ghost use Rattle.kom_loads.specs.Ring as spec;

use kom_base::Values;
use kom_events::{EventRow, EventTypes, Kinds, PortRow, PortTypes};
use kom_lang::{Child, Kind, Name, Names, PortDecl};
use kom_system::{Declared, System};
use sqlite_items::Items;
use std::alloc::{AllocError, Global};

fn row(own: u8) -> EventRow
    ensures { result ≡ spec.row own }
{
    EventRow { parent: None, own }
}

fn event_types(alloc: Global) -> Result<EventTypes, AllocError>
    ensures { IfOk result (λ types. types ≡ spec.events) }
{
    let rows = [row(2), row(1), row(1), row(2), row(1), row(0)];
    EventTypes::build(alloc, &rows)
}

fn port_row(alloc: Global, plus: &[u16], minus: &[u16]) -> Result<PortRow, AllocError>
    ensures { IfOk result (λ row. row ≡ record { plus = plus.now; minus = minus.now }) }
{
    Ok(PortRow {
        plus: Kinds::from_slice(alloc, plus)?,
        minus: Kinds::from_slice(alloc, minus)?,
    })
}

fn port_types(alloc: Global) -> Result<PortTypes, AllocError>
    ensures { IfOk result (λ types. types ≡ spec.ports) }
{
    let mut rows = Vec::new(alloc);
    rows.push(port_row(alloc, &[2], &[0, 1])?)?;
    rows.push(port_row(alloc, &[3], &[3])?)?;
    rows.push(port_row(alloc, &[4], &[])?)?;
    rows.push(port_row(alloc, &[], &[5])?)?;
    PortTypes::build(alloc, rows)
}

fn names(alloc: Global, list: &[&[u8]]) -> Result<Names, AllocError>
    ensures { IfOk result (λ names. length names ≡ length list.now) }
{
    let mut names = Names::new(alloc);
    for bytes in list {
        names.push(Name::of(alloc, bytes)?)?;
    }
    Ok(names)
}

fn attr_names(alloc: Global) -> Result<Items<Names>, AllocError>
    ensures { IfOk result (λ lists. map length lists ≡ spec.counts) }
{
    let mut lists = Items::new(alloc);
    lists.push(names(alloc, &[b"id", b"delay"])?)?;
    lists.push(names(alloc, &[b"id"])?)?;
    lists.push(names(alloc, &[b"id"])?)?;
    lists.push(names(alloc, &[b"src", b"dst"])?)?;
    lists.push(names(alloc, &[b"hops"])?)?;
    lists.push(names(alloc, &[])?)?;
    Ok(lists)
}

fn port(alloc: Global, name: &[u8], port: u16, provided: bool) -> Result<PortDecl, AllocError>
    ensures { IfOk result (λ p. p ≡ record { name = p.name; port = port; provided = provided }) }
{
    Ok(PortDecl {
        name: Name::of(alloc, name)?,
        port,
        provided,
    })
}

/// The component type of the root: it takes tokens at one port and commands at another.
fn main_kind(alloc: Global) -> Result<Kind, AllocError>
    ensures { IfOk result (λ kind. spec.IsMain kind) }
{
    let mut ports = Items::new(alloc);
    ports.push(port(alloc, b"feed", 2, false)?)?;
    ports.push(port(alloc, b"cmd", 3, true)?)?;
    Ok(Kind {
        name: Name::of(alloc, b"Main")?,
        ports,
        vars: Items::new(alloc),
        slots: Items::new(alloc),
        channels: Items::new(alloc),
        handlers: Items::new(alloc),
    })
}

fn declared(alloc: Global) -> Result<Declared, AllocError>
    ensures { IfOk result spec.IsRing }
{
    let mut kinds = Items::new(alloc);
    kinds.push(main_kind(alloc)?)?;
    Ok(Declared {
        event_types: event_types(alloc)?,
        event_names: names(
            alloc,
            &[
                b"SetTimer",
                b"CancelTimer",
                b"Timeout",
                b"Message",
                b"Tok",
                b"Swap",
            ],
        )?,
        attr_names: attr_names(alloc)?,
        port_types: port_types(alloc)?,
        port_names: names(alloc, &[b"Timer", b"Network", b"Ring", b"Cmd"])?,
        kinds,
        root: Child {
            kind: 0,
            args: Values::new(alloc),
        },
        version: 1,
    })
}

/// A system whose root has the ports of the generated systems: tokens come in at `feed` and
/// commands at `cmd`.
pub fn ring_system(alloc: Global) -> Result<System, AllocError>
    ensures { IfOk result spec.IsRingSystem }
{
    let declared = declared(alloc)?;
    System::from_declared(alloc, declared)
}
