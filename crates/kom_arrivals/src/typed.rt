ghost use Rattle.std.specs.Prelude.{◌≡◌, ℕ, List};
ghost use Rattle.kom_events.specs.Kin.{kin};
ghost use Rattle.kom_events.specs.Ports.{lists, passes};
ghost use Rattle.kom_rules.specs.Names.{first_place};
ghost use Rattle.kom_rules.specs.Spaces.{event_number, event_rows, port_rows, port_type_number};
ghost use Rattle.kom_rules.specs.Fitting.{inwards as inwards_of, is_related, unrelated};
ghost use Rattle.kom_system.specs.Statements.{outwards as outwards_of};
ghost use Rattle.kom_tables.specs.Typed.{AreTypes};

use kom_base::Dir;
use kom_system::{Parts, PortPart, Spot};
use kom_tables::TypeTables;
use kom_walks::at_if;

/// A syntax tree with the tables of its event types and port types.
#[derive(Drop)]
pub struct Typed<'a> {
    pub parts: &'a Parts,
    pub tables: &'a TypeTables,

    ghost tabled: { AreTypes tables.now parts.now },
}

/// The direction in which a port lets events in from outside, if it is provided or not.
pub fn inwards(provided: bool) -> Dir
    ensures { result ≡ inwards_of provided }
{
    if provided { Dir::Minus } else { Dir::Plus }
}

/// The direction in which it lets them out.
pub fn outwards(provided: bool) -> Dir
    ensures { result ≡ outwards_of provided }
{
    if provided { Dir::Plus } else { Dir::Minus }
}

impl Typed<'_> {
    /// Whether an event type is another or a descendant of it.
    fn is_kin(&self, a: usize, b: usize) -> bool
        ensures { result ≡ kin (event_rows self.now.parts.now) a b }
    {
        self.tables.events.is_kin(a, b)
    }

    /// Whether an event type is kin or ancestor of one of some types.
    fn is_related(&self, kind: usize, kinds: &[usize]) -> bool
        ensures { result ≡ is_related (event_rows self.now.parts.now) kind kinds.now }
    {
        kinds
            .iter()
            .any(|t| self.is_kin(kind, *t) || self.is_kin(*t, kind))
    }

    /// Whether one of some types is an event type or an ancestor of it.
    fn is_kin_of_one(&self, kind: usize, kinds: &[usize]) -> bool
        ensures { result ≡ lists (event_rows self.now.parts.now) kinds.now kind }
    {
        kinds.iter().any(|t| self.is_kin(kind, *t))
    }

    /// The name of an event type that is not related to what a port type lists for a direction.
    pub fn unrelated(&self, port: &Spot, dir: Dir, kind: &Spot) -> Option<u32>
        ensures { result ≡ first_place (unrelated self.now.parts.now port.now dir kind.now) }
    {
        let listed = self.tables.ports.listed(self.parts, port, dir);
        let number = self.tables.events.number(self.parts, kind);
        at_if(!self.is_related(number, listed), kind.at)
    }

    /// Whether events of a type may leave by a port.
    pub fn leaves(&self, port: &PortPart, kind: &Spot) -> bool
        ensures { result ≡ passes (event_rows self.now.parts.now) (port_rows self.now.parts.now) (port_type_number self.now.parts.now port.now.port) (outwards_of port.now.provided) (event_number self.now.parts.now kind.now) }
    {
        let dir = outwards(port.provided);
        let listed = self.tables.ports.listed(self.parts, &port.port, dir);
        let number = self.tables.events.number(self.parts, kind);
        self.is_kin_of_one(number, listed)
    }
}
