ghost use Rattle.std.specs.Prelude.{◌≡◌, true, map, IfOk};
ghost use Rattle.kom_lookups.specs.Tabled.{AreTables, HasNames};
ghost use Rattle.kom_resolve.specs.Counted.{IsCounted, has_short_lists};
ghost use Rattle.kom_resolve.specs.Resolved.{port_number, slot_number, channel_number, handler_number, port_number_at, end_value, target_value, on_value};
ghost use Rattle.kom_rules.specs.Names.{names_of};

use crate::all::{Resolves, resolve_all};
use crate::numbers::{File, number_or};
use kom_base::Copied;
use kom_lang::{Name, Names as NameList, On, Place, Target};
use kom_lookups::{Names, Tables, find_by};
use kom_system::{ComponentPart, EndPart, OnPart, Parts, Spot, TargetPart};
use std::alloc::{AllocError, Global};

/// A component type of a file, with the numbers of its names.
#[derive(Drop)]
pub struct Site<'a> {
    pub parts: &'a Parts,
    pub tables: &'a Tables,
    pub part: &'a ComponentPart,
    pub names: &'a Names,

    ghost tabled: { AreTables tables.now parts.now },
    ghost counted: { IsCounted parts.now },
    ghost named: { HasNames names.now part.now },
    ghost short: { has_short_lists part.now ≡ true },
}

/// What gives the name of a spot.
#[derive(Drop)]
struct Named;

impl Resolves<Spot, Name> for Named {
    ghost value = { λ s spot. spot.name };

    fn resolve(&self, alloc: Global, spot: &Spot) -> Result<Name, AllocError> {
        spot.name.copy(alloc)
    }
}

/// The names of some spots.
pub fn names_in(alloc: Global, spots: &[Spot]) -> Result<NameList, AllocError>
    ensures { IfOk result (λ names. names ≡ names_of spots.now) }
{
    resolve_all(&Named, alloc, spots)
}

impl<'a> Site<'a> {
    /// The file that the component type stands in.
    pub fn file(&self) -> File<'a>
        ensures { result.parts.now ≡ self.now.parts.now }
    {
        File {
            parts: self.parts,
            tables: self.tables,
        }
    }

    /// The number of a port.
    pub fn port(&self, spot: &Spot) -> u8
        ensures { result ≡ port_number self.now.part.now spot.now }
    {
        number_or(&self.names.ports, spot, self.part.ports.len()) as u8
    }

    /// The number of a slot.
    pub fn slot(&self, spot: &Spot) -> u8
        ensures { result ≡ slot_number self.now.part.now spot.now }
    {
        number_or(&self.names.slots, spot, self.part.slots.len()) as u8
    }

    /// The number of a channel.
    pub fn channel(&self, spot: &Spot) -> u8
        ensures { result ≡ channel_number self.now.part.now spot.now }
    {
        number_or(&self.names.channels, spot, self.part.channels.len()) as u8
    }

    /// The number of a handler.
    pub fn handler(&self, spot: &Spot) -> u8
        ensures { result ≡ handler_number self.now.part.now spot.now }
    {
        number_or(&self.names.handlers, spot, self.part.handlers.len()) as u8
    }

    /// The number of a port of the component type in a slot.
    fn port_at(&self, slot: &Spot, port: &Spot) -> u8
        ensures { result ≡ port_number_at self.now.parts.now self.now.part.now slot.now port.now }
    {
        match find_by(&self.names.slots, self.part.slots.as_slice(), slot) {
            Some(found) => self.file().port_in(found, port),
            None => 0,
        }
    }

    /// Where an end of a channel is declared.
    pub fn end(&self, end: &EndPart) -> Option<Place>
        ensures { result ≡ end_value self.now.parts.now self.now.part.now end.now }
    {
        match end {
            EndPart::Free => None,
            EndPart::Own(port) => Some(Place {
                slot: None,
                port: self.port(port),
            }),
            EndPart::Child { slot, port } => Some(Place {
                slot: Some(self.slot(slot)),
                port: self.port_at(slot, port),
            }),
        }
    }

    /// Where `plug` puts an end.
    pub fn target(&self, alloc: Global, target: &TargetPart) -> Result<Target, AllocError>
        ensures { IfOk result (λ t. t ≡ target_value self.now.part.now target.now) }
    {
        match target {
            TargetPart::Own(port) => Ok(Target::Own(self.port(port))),
            TargetPart::Child { slot, port } => Ok(Target::Child {
                slot: self.slot(slot),
                port: port.name.copy(alloc)?,
            }),
        }
    }

    /// What a handler handles.
    pub fn on(&self, alloc: Global, on: &OnPart) -> Result<On, AllocError>
        ensures { IfOk result (λ o. o ≡ on_value self.now.parts.now self.now.part.now on.now) }
    {
        match on {
            OnPart::Event { kind, port } => Ok(On::Event {
                kind: self.file().event(kind),
                port: self.port(port),
            }),
            OnPart::Init(spots) => Ok(On::Init(names_in(alloc, spots.as_slice())?)),
            OnPart::Start => Ok(On::Start),
            OnPart::Stop => Ok(On::Stop),
            OnPart::Fault { slot, number } => Ok(On::Fault {
                slot: slot.name.copy(alloc)?,
                number: number.name.copy(alloc)?,
            }),
            OnPart::Dumped { slot } => Ok(On::Dumped {
                slot: slot.name.copy(alloc)?,
            }),
        }
    }
}
