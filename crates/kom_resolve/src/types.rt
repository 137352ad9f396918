ghost use Rattle.std.specs.Prelude.{◌≡◌, ◌≤◌, ◌++◌, None, map, length, IfOk, OnOk};
ghost use Rattle.kom_system.specs.Fitting.{built_in_ports};
ghost use Rattle.kom_rules.specs.Names.{names_of};
ghost use Rattle.kom_rules.specs.Spaces.{event_number, event_row, event_rows, port_row, port_rows, event_names, port_type_names};

use crate::all::{Resolves, resolve_all};
use crate::numbers::File;
use kom_base::Copied;
use kom_events::{EventRow, PortRow};
use kom_lang::{Name, Names};
use kom_spaces::Declares;
use kom_system::{EventPart, Parts, PortTypePart, Spot};
use sqlite_items::Items;
use std::alloc::{AllocError, Global};

impl Resolves<Spot, u16> for File<'_> {
    ghost value = { λ s. event_number s.parts.now };

    fn resolve(&self, _alloc: Global, spot: &Spot) -> Result<u16, AllocError> {
        Ok(self.event(spot))
    }
}

/// The row of a declared event type.
fn event_row(file: &File<'_>, part: &EventPart) -> EventRow
    requires { length part.now.attrs ≤ 255 }
    ensures { result ≡ event_row file.now.parts.now part.now }
{
    EventRow {
        parent: match &part.parent {
            Some(parent) => Some(file.event(parent)),
            None => None,
        },
        own: part.attrs.len() as u8,
    }
}

/// The row of a built-in event type without a parent.
fn built_in(own: u8) -> EventRow
    ensures { result ≡ record { parent = None; own = own } }
{
    EventRow { parent: None, own }
}

/// The rows of all event types, the built-in ones first.
pub fn event_rows(file: &File<'_>, alloc: Global) -> Result<Vec<EventRow>, AllocError>
    ensures { IfOk result (λ rows. rows.items ≡ event_rows file.now.parts.now) }
{
    let mut rows = Vec::from_slice(alloc, &[built_in(2), built_in(1), built_in(1), built_in(2)])?;
    for part in file.parts.events.as_slice() {
        rows.push(event_row(file, part))?;
    }
    Ok(rows)
}

impl Resolves<PortTypePart, PortRow> for File<'_> {
    ghost value = { λ s. port_row s.parts.now };

    fn resolve(&self, alloc: Global, part: &PortTypePart) -> Result<PortRow, AllocError> {
        Ok(PortRow {
            plus: resolve_all(self, alloc, part.plus.as_slice())?,
            minus: resolve_all(self, alloc, part.minus.as_slice())?,
        })
    }
}

/// The rows of the built-in port types.
fn built_in_ports(alloc: Global) -> Result<Vec<PortRow>, AllocError>
    ensures { IfOk result (λ rows. rows.items ≡ built_in_ports) }
{
    let mut rows = Vec::new(alloc);
    rows.push(PortRow {
        plus: Items::from_slice(alloc, &[2])?,
        minus: Items::from_slice(alloc, &[0, 1])?,
    })?;
    rows.push(PortRow {
        plus: Items::from_slice(alloc, &[3])?,
        minus: Items::from_slice(alloc, &[3])?,
    })?;
    Ok(rows)
}

/// The rows of all port types, the built-in ones first.
pub fn port_rows(file: &File<'_>, alloc: Global) -> Result<Vec<PortRow>, AllocError>
    ensures { IfOk result (λ rows. rows.items ≡ port_rows file.now.parts.now) }
{
    let mut rows = built_in_ports(alloc)?;
    for part in file.parts.ports.as_slice() {
        rows.push(file.resolve(alloc, part)?)?;
    }
    Ok(rows)
}

/// Adds the names that some parts declare.
fn add_declared<T: Declares>(
    alloc: Global,
    names: &mut Names,
    parts: &[T],
) -> Result<(), AllocError>
    ensures { OnOk result (names.new ≡ names.old ++ names_of (map T.named parts.now)) }
{
    for part in parts {
        names.push(part.spot().name.copy(alloc)?)?;
    }
    Ok(())
}

/// The names of all event types, the built-in ones first.
pub fn event_names(alloc: Global, parts: &Parts) -> Result<Names, AllocError>
    ensures { IfOk result (λ names. names ≡ event_names parts.now) }
{
    let mut names = Names::new(alloc);
    names.push(Name::of(alloc, b"SetTimer")?)?;
    names.push(Name::of(alloc, b"CancelTimer")?)?;
    names.push(Name::of(alloc, b"Timeout")?)?;
    names.push(Name::of(alloc, b"Message")?)?;
    add_declared(alloc, &mut names, parts.events.as_slice())?;
    Ok(names)
}

/// The names of all port types, the built-in ones first.
pub fn port_type_names(alloc: Global, parts: &Parts) -> Result<Names, AllocError>
    ensures { IfOk result (λ names. names ≡ port_type_names parts.now) }
{
    let mut names = Names::new(alloc);
    names.push(Name::of(alloc, b"Timer")?)?;
    names.push(Name::of(alloc, b"Network")?)?;
    add_declared(alloc, &mut names, parts.ports.as_slice())?;
    Ok(names)
}
