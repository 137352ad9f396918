ghost use Rattle.std.specs.Prelude.{◌≡◌, ◌++◌, ◌||◌, not, List, []};
ghost use Rattle.std.specs.List.{flat_map};
ghost use Rattle.std.specs.Option.{option_map_or};
ghost use Rattle.kom_rules.specs.Names.{Name, first_place, is_among, at_if as at_if_so};
ghost use Rattle.kom_rules.specs.Declaring.{unknown_event, unknown_port_type, unknown_component, unknown_port};
ghost use Rattle.kom_rules.specs.Spaces.{component_named, type_in};
ghost use Rattle.kom_lookups.specs.Numbered.{HasNumbers};
ghost use Rattle.kom_lookups.specs.Tabled.{AreTables};

use kom_lookups::{Tables, unknown};
use kom_names::Numbers;
use kom_spaces::{is_built_in_event, is_built_in_port};
use kom_system::{EventPart, Parts, PortPart, PortTypePart, RootPart, SlotPart, Spot, TestPart};
use kom_walks::{Of, earlier, first_of};
use sqlite_items::at;

/// A syntax tree with its tables.
#[derive(Drop)]
pub struct File<'a> {
    pub parts: &'a Parts,
    pub tables: &'a Tables,

    ghost tabled: { AreTables tables.now parts.now },
}

/// The place of a name that is neither known otherwise nor in the table.
pub fn unless_known(known: bool, table: &Numbers, spot: &Spot) -> Option<u32>
    ensures { (names : List Name) → HasNumbers table.now names → result ≡ first_place (at_if_so (not (known || is_among names spot.now.name)) spot.now.at) }
{
    if known { None } else { unknown(table, spot) }
}

impl<'a> File<'a> {
    /// The tree with its tables.
    pub fn new(parts: &'a Parts, tables: &'a Tables) -> File<'a>
        requires { AreTables tables.now parts.now }
        ensures parts { result.parts.now ≡ parts.now }
    {
        File { parts, tables }
    }

    /// The name of an event type that there is not.
    pub fn event(&self, spot: &Spot) -> Option<u32>
        ensures { result ≡ first_place (unknown_event self.now.parts.now spot.now) }
    {
        let built_in = is_built_in_event(spot.name.bytes());
        unless_known(built_in, &self.tables.events, spot)
    }

    /// The name of a port type that there is not.
    pub fn port_type(&self, spot: &Spot) -> Option<u32>
        ensures { result ≡ first_place (unknown_port_type self.now.parts.now spot.now) }
    {
        let built_in = is_built_in_port(spot.name.bytes());
        unless_known(built_in, &self.tables.port_types, spot)
    }

    /// The name of a component type that there is not.
    pub fn component(&self, spot: &Spot) -> Option<u32>
        ensures { result ≡ first_place (unknown_component self.now.parts.now spot.now) }
    {
        unknown(&self.tables.components, spot)
    }

    /// The name of a port that the type in a slot, where it has one that is declared, has not.
    pub fn port_in(&self, slot: &SlotPart, port: &Spot) -> Option<u32>
        ensures { result ≡ first_place (option_map_or (λ t. unknown_port t port.now) (type_in self.now.parts.now slot.now) []) }
    {
        let Some(child) = &slot.child else {
            return None;
        };
        self.port_of(&child.kind, port)
    }

    /// The same, for the type with a name.
    fn port_of(&self, kind: &Spot, port: &Spot) -> Option<u32>
        ensures { result ≡ first_place (option_map_or (λ t. unknown_port t port.now) (component_named self.now.parts.now kind.now) []) }
    {
        match self.tables.components.number(kind.name.bytes()) {
            Some(number) => match at(self.tables.inside.as_slice(), number) {
                Some(names) => unknown(&names.ports, port),
                None => None,
            },
            None => None,
        }
    }
}

impl Of<Spot> for File<'_> {
    ghost places = { λ s. unknown_event s.parts.now };

    fn first(&self, spot: &Spot) -> Option<u32> {
        self.event(spot)
    }
}

impl Of<TestPart> for File<'_> {
    ghost places = { λ s t. unknown_event s.parts.now t.kind };

    fn first(&self, test: &TestPart) -> Option<u32> {
        self.event(&test.kind)
    }
}

impl Of<EventPart> for File<'_> {
    ghost places = { λ s e. option_map_or (unknown_event s.parts.now) e.parent [] };

    fn first(&self, part: &EventPart) -> Option<u32> {
        match &part.parent {
            Some(parent) => self.event(parent),
            None => None,
        }
    }
}

impl Of<PortTypePart> for File<'_> {
    ghost places = { λ s t. flat_map (unknown_event s.parts.now) t.plus ++ flat_map (unknown_event s.parts.now) t.minus };

    fn first(&self, part: &PortTypePart) -> Option<u32> {
        let plus = first_of(self, part.plus.as_slice());
        earlier(plus, first_of(self, part.minus.as_slice()))
    }
}

impl Of<PortPart> for File<'_> {
    ghost places = { λ s p. unknown_port_type s.parts.now p.port };

    fn first(&self, part: &PortPart) -> Option<u32> {
        self.port_type(&part.port)
    }
}

impl Of<SlotPart> for File<'_> {
    ghost places = { λ s x. option_map_or (λ child. unknown_component s.parts.now child.kind) x.child [] };

    fn first(&self, part: &SlotPart) -> Option<u32> {
        match &part.child {
            Some(child) => self.component(&child.kind),
            None => None,
        }
    }
}

impl Of<RootPart> for File<'_> {
    ghost places = { λ s r. unknown_component s.parts.now r.child.kind };

    fn first(&self, part: &RootPart) -> Option<u32> {
        self.component(&part.child.kind)
    }
}
