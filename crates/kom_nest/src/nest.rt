ghost use Rattle.std.specs.Prelude.{◌≡◌, [], ◌∷◌, length, map, None, Some, true, false, IfOk};
ghost use Rattle.kom_nest.specs.Nest as spec;

use kom_base::Values;
use kom_events::{EventRow, EventTypes, Kinds, PortRow, PortTypes};
use kom_lang::{ChannelDecl, Child, Kind, Name, Names, Place, PortDecl, PortDecls, SlotDecl};
use kom_system::{Declared, System};
use sqlite_items::Items;
use std::alloc::{AllocError, Global};

fn row(own: u8) -> EventRow
    ensures { result ≡ spec.row own }
{
    EventRow { parent: None, own }
}

fn event_types(alloc: Global) -> Result<EventTypes, AllocError>
    ensures { IfOk result (λ types. types ≡ spec.events) }
{
    let rows = [row(2), row(1), row(1), row(2), row(1)];
    EventTypes::build(alloc, &rows)
}

fn port_row(alloc: Global, plus: &[u16], minus: &[u16]) -> Result<PortRow, AllocError>
    ensures { IfOk result (λ row. row ≡ record { plus = plus.now; minus = minus.now }) }
{
    Ok(PortRow {
        plus: Kinds::from_slice(alloc, plus)?,
        minus: Kinds::from_slice(alloc, minus)?,
    })
}

fn port_types(alloc: Global) -> Result<PortTypes, AllocError>
    ensures { IfOk result (λ types. types ≡ spec.ports) }
{
    let mut rows = Vec::new(alloc);
    rows.push(port_row(alloc, &[2], &[0, 1])?)?;
    rows.push(port_row(alloc, &[3], &[3])?)?;
    rows.push(port_row(alloc, &[4], &[])?)?;
    PortTypes::build(alloc, rows)
}

fn names(alloc: Global, list: &[&[u8]]) -> Result<Names, AllocError>
    ensures { IfOk result (λ names. length names ≡ length list.now) }
{
    let mut names = Names::new(alloc);
    for bytes in list {
        names.push(Name::of(alloc, bytes)?)?;
    }
    Ok(names)
}

fn attr_names(alloc: Global) -> Result<Items<Names>, AllocError>
    ensures { IfOk result (λ lists. map length lists ≡ spec.counts) }
{
    let mut lists = Items::new(alloc);
    lists.push(names(alloc, &[b"id", b"delay"])?)?;
    lists.push(names(alloc, &[b"id"])?)?;
    lists.push(names(alloc, &[b"id"])?)?;
    lists.push(names(alloc, &[b"src", b"dst"])?)?;
    lists.push(names(alloc, &[b"n"])?)?;
    Ok(lists)
}

/// The one port of each component type: numbers come in.
fn one_port(alloc: Global) -> Result<PortDecls, AllocError>
    ensures { IfOk result spec.IsOnePort }
{
    let mut ports = Items::new(alloc);
    ports.push(PortDecl {
        name: Name::of(alloc, b"p")?,
        port: 2,
        provided: false,
    })?;
    Ok(ports)
}

/// The component type of the child.
fn leaf_kind(alloc: Global) -> Result<Kind, AllocError>
    ensures { IfOk result spec.IsLeaf }
{
    Ok(Kind {
        name: Name::of(alloc, b"Leaf")?,
        ports: one_port(alloc)?,
        vars: Items::new(alloc),
        slots: Items::new(alloc),
        channels: Items::new(alloc),
        handlers: Items::new(alloc),
    })
}

/// The slot of the child.
fn slot(alloc: Global) -> Result<SlotDecl, AllocError>
    ensures { IfOk result spec.IsSlot }
{
    Ok(SlotDecl {
        name: Name::of(alloc, b"a")?,
        child: Some(Child {
            kind: 0,
            args: Values::new(alloc),
        }),
    })
}

/// The channel from the port of the root to that of its child.
fn channel(alloc: Global) -> Result<ChannelDecl, AllocError>
    ensures { IfOk result spec.IsChannel }
{
    Ok(ChannelDecl {
        name: Name::of(alloc, b"k")?,
        port: 2,
        plus: Some(Place {
            slot: None,
            port: 0,
        }),
        minus: Some(Place {
            slot: Some(0),
            port: 0,
        }),
        plus_when: Items::new(alloc),
        minus_when: Items::new(alloc),
    })
}

/// The component type of the root, with the child in its slot.
fn main_kind(alloc: Global) -> Result<Kind, AllocError>
    ensures { IfOk result spec.IsMain }
{
    let mut slots = Items::new(alloc);
    slots.push(slot(alloc)?)?;
    let mut channels = Items::new(alloc);
    channels.push(channel(alloc)?)?;
    Ok(Kind {
        name: Name::of(alloc, b"Main")?,
        ports: one_port(alloc)?,
        vars: Items::new(alloc),
        slots,
        channels,
        handlers: Items::new(alloc),
    })
}

fn declared(alloc: Global) -> Result<Declared, AllocError>
    ensures { IfOk result spec.IsNest }
{
    let mut kinds = Items::new(alloc);
    kinds.push(leaf_kind(alloc)?)?;
    kinds.push(main_kind(alloc)?)?;
    Ok(Declared {
        event_types: event_types(alloc)?,
        event_names: names(
            alloc,
            &[b"SetTimer", b"CancelTimer", b"Timeout", b"Message", b"N"],
        )?,
        attr_names: attr_names(alloc)?,
        port_types: port_types(alloc)?,
        port_names: names(alloc, &[b"Timer", b"Network", b"P"])?,
        kinds,
        root: Child {
            kind: 1,
            args: Values::new(alloc),
        },
        version: 1,
    })
}

/// A system whose root has a port, a child in its one slot, and a channel from the port to that of
/// the child. No component handles anything.
pub fn nest_system(alloc: Global) -> Result<System, AllocError>
    ensures { IfOk result spec.IsNestSystem }
{
    let declared = declared(alloc)?;
    System::from_declared(alloc, declared)
}
