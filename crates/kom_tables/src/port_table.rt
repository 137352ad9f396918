ghost use Rattle.std.specs.Prelude.{◌≡◌, map, IfOk};
ghost use Rattle.kom_rules.specs.Spaces.{event_spots, port_rows};
ghost use Rattle.kom_rules.specs.Fitting.{listed_for};
ghost use Rattle.kom_rules.specs.Names.{names_of};
ghost use Rattle.kom_system.specs.Fitting.{built_in_ports};
ghost use Rattle.kom_lookups.specs.Numbered.{HasNumbers};
ghost use Rattle.kom_tables.specs.Typed.{AreEventTypes, ArePortTypes};

use crate::event_table::EventTable;
use crate::numbers::{event_numbers, port_type_number};
use kom_base::Dir;
use kom_lookups::numbers_of;
use kom_names::Numbers;
use kom_system::{Parts, Spot};
use sqlite_items::{Items, at};
use std::alloc::{AllocError, Global};

/// The port types of a file by number, the 2 built-in ones first and then the declared ones in the
/// order of the text.
#[derive(Drop)]
pub struct PortTable {
    /// The numbers of the declared types among themselves.
    pub declared: Numbers,

    /// For each type the numbers of the event types that it lists for the plus direction.
    pub plus: Items<Items<usize>>,

    /// The same for the minus direction.
    pub minus: Items<Items<usize>>,
}

impl PortTable {
    /// The port types of a file, by its event types. The error is want of memory.
    pub fn of(alloc: Global, parts: &Parts, events: &EventTable) -> Result<PortTable, AllocError>
        requires { AreEventTypes events.now parts.now }
        ensures { IfOk result (λ table. ArePortTypes table parts.now) }
    {
        Ok(PortTable {
            declared: numbers_of(alloc, parts.ports.as_slice())?,
            plus: plus_lists(alloc, &events.declared, parts)?,
            minus: minus_lists(alloc, &events.declared, parts)?,
        })
    }

    /// The numbers of the event types that the port type with a name lists for a direction; none
    /// where there is no such port type. It takes no memory.
    pub fn listed(&self, parts: &Parts, port: &Spot, dir: Dir) -> &[usize]
        requires { ArePortTypes self.now parts.now }
        ensures { result.now ≡ listed_for parts.now port.now dir }
    {
        let lists = match dir {
            Dir::Plus => &self.plus,
            Dir::Minus => &self.minus,
        };
        match at(
            lists.as_slice(),
            port_type_number(&self.declared, parts, port),
        ) {
            Some(list) => list.as_slice(),
            None => &[],
        }
    }
}

/// The built-in port types' lists for the plus direction.
fn built_in_plus(alloc: Global) -> Result<Items<Items<usize>>, AllocError>
    ensures { IfOk result (λ lists. lists ≡ map (λ row. row.plus) built_in_ports) }
{
    let mut lists = Items::new(alloc);
    lists.push(Items::from_slice(alloc, &[2])?)?;
    lists.push(Items::from_slice(alloc, &[3])?)?;
    Ok(lists)
}

/// Those for the minus direction.
fn built_in_minus(alloc: Global) -> Result<Items<Items<usize>>, AllocError>
    ensures { IfOk result (λ lists. lists ≡ map (λ row. row.minus) built_in_ports) }
{
    let mut lists = Items::new(alloc);
    lists.push(Items::from_slice(alloc, &[0, 1])?)?;
    lists.push(Items::from_slice(alloc, &[3])?)?;
    Ok(lists)
}

/// Each port type's list for the plus direction.
fn plus_lists(
    alloc: Global,
    declared: &Numbers,
    parts: &Parts,
) -> Result<Items<Items<usize>>, AllocError>
    requires { HasNumbers declared.now (names_of (event_spots parts.now)) }
    ensures { IfOk result (λ lists. lists ≡ map (λ row. row.plus) (port_rows parts.now)) }
{
    let mut lists = built_in_plus(alloc)?;
    for part in parts.ports.as_slice() {
        lists.push(event_numbers(alloc, declared, parts, part.plus.as_slice())?)?;
    }
    Ok(lists)
}

/// Each port type's list for the minus direction.
fn minus_lists(
    alloc: Global,
    declared: &Numbers,
    parts: &Parts,
) -> Result<Items<Items<usize>>, AllocError>
    requires { HasNumbers declared.now (names_of (event_spots parts.now)) }
    ensures { IfOk result (λ lists. lists ≡ map (λ row. row.minus) (port_rows parts.now)) }
{
    let mut lists = built_in_minus(alloc)?;
    for part in parts.ports.as_slice() {
        lists.push(event_numbers(alloc, declared, parts, part.minus.as_slice())?)?;
    }
    Ok(lists)
}
