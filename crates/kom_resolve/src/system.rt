ghost use Rattle.std.specs.Prelude.{◌≡◌, map, IfOk};
ghost use Rattle.kom_resolve.specs.Counted.{IsCounted};
ghost use Rattle.kom_resolve.specs.Resolved.{resolved, kind_value, root_value};
ghost use Rattle.kom_system.specs.Contents.{contents_of};

use crate::kinds::{Inner, Whole};
use crate::numbers::File;
use crate::types::{event_names, event_rows, port_rows, port_type_names};
use kom_base::Values;
use kom_events::{EventTypes, PortTypes};
use kom_lang::{Child, Kind};
use kom_lookups::Tables;
use kom_system::{Declared, Parts};
use kom_tables::EventTable;
use sqlite_items::Items;
use std::alloc::{AllocError, Global};

/// The component types.
fn kinds(whole: &Whole<'_>, alloc: Global) -> Result<Items<Kind>, AllocError>
    ensures { IfOk result (λ kinds. kinds ≡ map (kind_value whole.now.parts.now) whole.now.parts.now.components) }
{
    let mut kinds = Items::new(alloc);
    for (k, part) in whole.parts.components.as_slice().iter().enumerate() {
        let inner = Inner {
            whole,
            part,
            names: &whole.tables.inside.as_slice()[k],
        };
        kinds.push(inner.kind(alloc)?)?;
    }
    Ok(kinds)
}

/// The component type of the first root, with its arguments.
fn root(whole: &Whole<'_>, alloc: Global) -> Result<Child, AllocError>
    ensures { IfOk result (λ root. root ≡ root_value whole.now.parts.now) }
{
    match whole.parts.roots.as_slice().first() {
        Some(root) => whole.child(alloc, &root.child),
        None => Ok(Child {
            kind: 0,
            args: Values::new(alloc),
        }),
    }
}

/// The system that a syntax tree stands for. The error is want of memory.
pub fn resolve(alloc: Global, parts: &Parts) -> Result<Declared, AllocError>
    requires { IsCounted parts.now }
    ensures { IfOk result (λ declared. contents_of declared ≡ resolved parts.now) }
{
    let tables = Tables::of(alloc, parts)?;
    let file = File {
        parts,
        tables: &tables,
    };
    let events = EventTable::of(alloc, parts)?;
    let whole = Whole {
        parts,
        tables: &tables,
        attrs: &events.attributes,
    };
    let kinds = kinds(&whole, alloc)?;
    let root = root(&whole, alloc)?;
    let rows = event_rows(&file, alloc)?;
    Ok(Declared {
        event_types: EventTypes::build(alloc, rows.as_slice())?,
        event_names: event_names(alloc, parts)?,
        port_types: PortTypes::build(alloc, port_rows(&file, alloc)?)?,
        port_names: port_type_names(alloc, parts)?,
        attr_names: events.attributes,
        kinds,
        root,
        version: parts.version,
    })
}
