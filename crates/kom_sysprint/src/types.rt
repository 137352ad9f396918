ghost use Rattle.std.specs.Prelude.{◌≡◌, ◌<◌, ◌++◌, ◌-◌, ℕ, List, [], Some, OnOk, drop, length, slice_get, slice_index_or};
ghost use Rattle.std.specs.List.{flat_map, enumerate_from};
ghost use Rattle.kom_events.specs.declared.event_types.EventRow.{EventRow};
ghost use Rattle.kom_events.specs.declared.port_types.PortRow.{PortRow};
ghost use Rattle.kom_sysprint.specs.Canonical.{parent_text, own_names, event_type_text, listed_text, port_type_text, declared_text};

use crate::lists::{Prints, Words, add_arguments, add_each};
use crate::names::{attr_names, port_type_name};
use crate::words::{add_command, add_word};
use kom_base::Dir;
use kom_events::{EventRow, PortRow};
use kom_lang::Name;
use kom_lines::{Names, Text, direction_word};
use std::alloc::AllocError;

/// How many event types, and how many port types, are built in.
const BUILT_IN_EVENTS: u16 = 4;

const BUILT_IN_PORTS: u16 = 2;

fn add_parent(text: &mut Text, names: &Names<'_>, parent: Option<u16>) -> Result<(), AllocError>
    ensures { OnOk result (text.new ≡ text.old ++ parent_text names.now parent) }
{
    match parent {
        Some(parent) => {
            text.add(b": ")?;
            add_word(text, names.event(parent))
        }
        None => Ok(()),
    }
}

/// The last names, which are those that an event type adds to the inherited ones.
fn own_names(own: u8, names: &[Name]) -> &[Name]
    ensures { result.now ≡ own_names own names.now }
{
    &names[names.len().saturating_sub(own as usize)..]
}

fn add_event_type(
    text: &mut Text,
    names: &Names<'_>,
    k: u16,
    row: &EventRow,
) -> Result<(), AllocError>
    ensures { OnOk result (text.new ≡ text.old ++ event_type_text names.now k row.now) }
{
    text.add(b"event ")?;
    add_word(text, names.event(k))?;
    add_parent(text, names, row.parent)?;
    add_arguments(text, &Words, own_names(row.own, attr_names(names, k)))?;
    text.add(b";\n")
}

/// Adds the event type with a number, where it is not built in.
fn add_event_type_at(text: &mut Text, names: &Names<'_>, k: u16) -> Result<(), AllocError>
    requires { k < length names.now.declarations.events }
    ensures { OnOk result ((row : EventRow) → slice_get names.now.declarations.events k ≡ Some row → text.new ≡ text.old ++ declared_text 4 (event_type_text names.now) (k, row)) }
{
    if k < BUILT_IN_EVENTS {
        return Ok(());
    }
    add_event_type(text, names, k, names.system().event_row(k))
}

/// Adds the event types that are not built in, by number.
pub fn add_event_types(text: &mut Text, names: &Names<'_>) -> Result<(), AllocError>
    ensures { OnOk result (text.new ≡ text.old ++ flat_map (declared_text 4 (event_type_text names.now)) (enumerate_from 0 names.now.declarations.events)) }
{
    names.system().well_formed();
    for k in 0..names.system().event_types().len() {
        add_event_type_at(text, names, k as u16)?;
    }
    Ok(())
}

/// Writes the event types that a port type lists for a direction.
#[derive(Drop)]
struct Listed<'a> {
    names: &'a Names<'a>,
    dir: Dir,
}

impl Prints<u16> for Listed<'_> {
    ghost use Rattle.kom_sysprint.specs.Canonical.{listed_text};

    ghost printed = { λ l k. listed_text l.names.now l.dir k };

    fn print(&self, text: &mut Text, k: &u16) -> Result<(), AllocError> {
        add_command(text, direction_word(self.dir), self.names.event(*k))
    }
}

fn add_port_type(
    text: &mut Text,
    names: &Names<'_>,
    k: u16,
    row: &PortRow,
) -> Result<(), AllocError>
    ensures { OnOk result (text.new ≡ text.old ++ port_type_text names.now k row.now) }
{
    let plus = Listed {
        names,
        dir: Dir::Plus,
    };
    let minus = Listed {
        names,
        dir: Dir::Minus,
    };
    text.add(b"port ")?;
    add_word(text, port_type_name(names, k))?;
    text.add(b"{\n")?;
    add_each(text, &plus, row.plus.as_slice())?;
    add_each(text, &minus, row.minus.as_slice())?;
    text.add(b"}\n")
}

/// Adds the port type with a number, where it is not built in.
fn add_port_type_at(text: &mut Text, names: &Names<'_>, k: u16) -> Result<(), AllocError>
    requires { k < length names.now.declarations.ports }
    ensures { OnOk result ((row : PortRow) → slice_get names.now.declarations.ports k ≡ Some row → text.new ≡ text.old ++ declared_text 2 (port_type_text names.now) (k, row)) }
{
    if k < BUILT_IN_PORTS {
        return Ok(());
    }
    add_port_type(text, names, k, names.system().port_row(k))
}

/// Adds the port types that are not built in, by number.
pub fn add_port_types(text: &mut Text, names: &Names<'_>) -> Result<(), AllocError>
    ensures { OnOk result (text.new ≡ text.old ++ flat_map (declared_text 2 (port_type_text names.now)) (enumerate_from 0 names.now.declarations.ports)) }
{
    names.system().well_formed();
    for k in 0..names.system().port_types().len() {
        add_port_type_at(text, names, k as u16)?;
    }
    Ok(())
}
