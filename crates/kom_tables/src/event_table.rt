ghost use Rattle.std.specs.Prelude.{◌≡◌, IfOk};
ghost use Rattle.kom_events.specs.Kin.{kin, attributes};
ghost use Rattle.kom_rules.specs.Names.{is_among};
ghost use Rattle.kom_rules.specs.Spaces.{event_rows, attribute_names, event_number as number_of_event};
ghost use Rattle.kom_system.specs.declared.parts.Parts.{Parts as Tree};
ghost use Rattle.kom_tables.specs.Typed.{AreEventTypes};

use crate::attributes::{attributes_of, own_attributes};
use crate::lines::{lines_of, parents_of};
use crate::numbers::event_number;
use kom_lang::{Name, Names};
use kom_lookups::numbers_of;
use kom_names::Numbers;
use kom_system::{Parts, Spot};
use sqlite_items::Items;
use std::alloc::{AllocError, Global};

/// Whether a name is among some names.
fn is_in(names: &[Name], name: &[u8]) -> bool
    ensures { result ≡ is_among names.now name.now }
{
    names.iter().any(|n| name == n.bytes())
}

/// The event types of a file by number, the 4 built-in ones first and then the declared ones in the
/// order of the text.
#[derive(Drop)]
pub struct EventTable {
    /// The numbers of the declared types among themselves.
    pub declared: Numbers,

    /// For each type itself, its parent, the parent of that and so on, at most as many as there are
    /// types.
    pub lines: Items<Items<usize>>,

    /// For each type the names of its attributes, inherited ones first.
    pub attributes: Items<Names>,
}

impl EventTable {
    /// The event types of a file. Time and memory are in the order of the text, and of the sum of
    /// all lengths of lines and of all counts of attributes. The error is want of memory.
    pub fn of(alloc: Global, parts: &Parts) -> Result<EventTable, AllocError>
        ensures { IfOk result (λ table. AreEventTypes table parts.now) }
    {
        let declared = numbers_of(alloc, parts.events.as_slice())?;
        let parents = parents_of(alloc, &declared, parts)?;
        let lines = lines_of(alloc, parents.as_slice())?;
        let own = own_attributes(alloc, parts)?;
        let attributes = attributes_of(alloc, own.as_slice(), lines.as_slice())?;
        Ok(EventTable {
            declared,
            lines,
            attributes,
        })
    }

    /// The number of the event type with a name; where there is none, the number behind the last.
    /// It takes no memory, like the calls below.
    pub fn number(&self, parts: &Parts, spot: &Spot) -> usize
        requires { AreEventTypes self.now parts.now }
        ensures { result ≡ number_of_event parts.now spot.now }
    {
        event_number(&self.declared, parts, spot)
    }

    /// Whether `a` is `b` or a descendant of it; a number that no type has is kin to none.
    pub fn is_kin(&self, a: usize, b: usize) -> bool
        ensures { (P : Tree) → AreEventTypes self.now P → result ≡ kin (event_rows P) a b }
    {
        match self.lines.get(a) {
            Some(line) => line.as_slice().contains(&b),
            None => false,
        }
    }

    /// How many attributes the events of a type have, inherited ones included.
    pub fn attribute_count(&self, kind: usize) -> usize
        ensures { (P : Tree) → AreEventTypes self.now P → result ≡ attributes (event_rows P) kind }
    {
        match self.attributes.get(kind) {
            Some(names) => names.len(),
            None => 0,
        }
    }

    /// Whether the events of a type have an attribute with this name.
    pub fn has_attribute(&self, kind: usize, name: &[u8]) -> bool
        ensures { (P : Tree) → AreEventTypes self.now P → result ≡ is_among (attribute_names P kind) name.now }
    {
        match self.attributes.get(kind) {
            Some(names) => is_in(names.as_slice(), name),
            None => false,
        }
    }
}
