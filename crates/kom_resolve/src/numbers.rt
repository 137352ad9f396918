ghost use Rattle.std.specs.Prelude.{◌≡◌, ◌≤◌, List, length, map};
ghost use Rattle.kom_lookups.specs.Numbered.{HasNumbers};
ghost use Rattle.kom_lookups.specs.Tabled.{AreTables};
ghost use Rattle.kom_rules.specs.Names.{Name, names_of, number_in};
ghost use Rattle.kom_rules.specs.Spaces.{event_number, port_type_number, component_number};
ghost use Rattle.std.specs.Option.{option_map_or};
ghost use Rattle.kom_rules.specs.Spaces.{type_in};
ghost use Rattle.kom_resolve.specs.Counted.{IsCounted};
ghost use Rattle.kom_resolve.specs.Resolved.{port_number};

use kom_lang::Name as Named;
use kom_lookups::{Tables, find_by};
use kom_names::Numbers;
use kom_spaces::Declares;
use kom_system::{Parts, SlotPart, Spot};
use kom_tables::{
    component_number as number_of_component, event_number as number_of_event,
    port_type_number as number_of_port_type,
};

/// The number of a name, from 0; that of a name that the table has not is `count`.
pub fn number_or(table: &Numbers, spot: &Spot, count: usize) -> usize
    ensures { (names : List Name) → HasNumbers table.now names → count ≡ length names → result ≡ number_in names spot.now.name }
{
    match table.number(spot.name.bytes()) {
        Some(number) => number,
        None => count,
    }
}

/// The number of a name among few, by a walk; that of a name that is not among them is their count.
pub fn number_among(names: &[Named], spot: &Spot) -> u8
    requires { length names.now ≤ 255 }
    ensures { result ≡ number_in names.now spot.now.name }
{
    let mut number = 0;
    for name in names {
        if spot.name.bytes() == name.bytes() {
            return number;
        }
        number += 1;
    }
    number
}

/// A syntax tree with its tables.
#[derive(Drop)]
pub struct File<'a> {
    pub parts: &'a Parts,
    pub tables: &'a Tables,

    ghost tabled: { AreTables tables.now parts.now },
    ghost counted: { IsCounted parts.now },
}

impl File<'_> {
    /// The number of a port of the component type in a slot; 0 where it has none that is declared.
    pub fn port_in(&self, slot: &SlotPart, port: &Spot) -> u8
        ensures { result ≡ option_map_or (λ t. port_number t port.now) (type_in self.now.parts.now slot.now) 0 }
    {
        let Some(child) = &slot.child else {
            return 0;
        };
        let components = self.parts.components.as_slice();
        match find_by(&self.tables.components, components, &child.kind) {
            Some(part) => number_of(part.ports.as_slice(), port) as u8,
            None => 0,
        }
    }

    /// The number of an event type.
    pub fn event(&self, spot: &Spot) -> u16
        ensures { result ≡ event_number self.now.parts.now spot.now }
    {
        number_of_event(&self.tables.events, self.parts, spot) as u16
    }

    /// The number of a port type.
    pub fn port_type(&self, spot: &Spot) -> u16
        ensures { result ≡ port_type_number self.now.parts.now spot.now }
    {
        number_of_port_type(&self.tables.port_types, self.parts, spot) as u16
    }

    /// The number of a component type.
    pub fn component(&self, spot: &Spot) -> u16
        ensures { result ≡ component_number self.now.parts.now spot.now }
    {
        number_of_component(&self.tables.components, self.parts, spot) as u16
    }
}

/// The number of a name among those that some parts declare, by a walk.
pub fn number_of<T: Declares>(parts: &[T], spot: &Spot) -> usize
    ensures { result ≡ number_in (names_of (map T.named parts.now)) spot.now.name }
{
    let mut number = 0;
    for part in parts {
        if spot.name.bytes() == part.spot().name.bytes() {
            return number;
        }
        number += 1;
    }
    number
}
