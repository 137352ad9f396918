ghost use Rattle.std.specs.Prelude.{◌≡◌, ◌++◌, [], IfOk};
ghost use Rattle.std.specs.List.{flat_map};
ghost use Rattle.kom_rules.specs.Names.{first_place};
ghost use Rattle.kom_rules.specs.Walks.{of_statements};
ghost use Rattle.kom_rules.specs.Handling.{wrong_values, miscounted, lacks, it_lacks, lacked_by_it, lacked_by_tests, lacked};

use crate::typed::Typed;
use kom_system::{ChannelPart, ComponentPart, OnPart, Parts, Spot, StmtPart, TestPart};
use kom_tables::TypeTables;
use kom_walks::{
    Of, OfHandling, OfNames, at_if, earlier, first_in_expressions, first_of, first_of_statements,
};
use std::alloc::{AllocError, Global};

impl Typed<'_> {
    /// The event type where it has another count of attributes.
    fn wrong_values(&self, kind: &Spot, count: usize) -> Option<u32>
        ensures { result ≡ first_place (wrong_values self.now.parts.now kind.now count) }
    {
        let number = self.tables.events.number(self.parts, kind);
        let attributes = self.tables.events.attribute_count(number);
        at_if(count != attributes, kind.at)
    }

    /// An attribute that the event type does not have.
    fn lacks(&self, kind: &Spot, attr: &Spot) -> Option<u32>
        ensures { result ≡ first_place (lacks self.now.parts.now kind.now attr.now) }
    {
        let number = self.tables.events.number(self.parts, kind);
        let has = self.tables.events.has_attribute(number, attr.name.bytes());
        at_if(!has, attr.at)
    }

    /// An attribute that the event in hand does not have.
    fn it_lacks(&self, on: &OnPart, attr: &Spot) -> Option<u32>
        ensures { result ≡ first_place (it_lacks self.now.parts.now on.now attr.now) }
    {
        match on {
            OnPart::Event { kind, .. } => self.lacks(kind, attr),
            _ => None,
        }
    }
}

/// What says which triggers and answers have a wrong count of values.
#[derive(Drop)]
struct Counts<'a> {
    typed: &'a Typed<'a>,
}

impl OfHandling for Counts<'_> {
    ghost says = { λ s. miscounted s.typed.now.parts.now };

    fn first_said(&self, _part: &ComponentPart, _on: &OnPart, stmt: &StmtPart) -> Option<u32> {
        match stmt {
            StmtPart::Trigger { kind, values, .. } => self.typed.wrong_values(kind, values.len()),
            StmtPart::Answer { kind, values, .. } => self.typed.wrong_values(kind, values.len()),
            _ => None,
        }
    }
}

/// The first trigger or answer whose count of values is not its event type's count of attributes,
/// inherited ones included, at the event type's name; `None` exactly where there is none. The error
/// is want of memory.
pub fn miscounted(alloc: Global, parts: &Parts) -> Result<Option<u32>, AllocError>
    ensures { IfOk result (λ first. first ≡ first_place (of_statements miscounted parts.now)) }
{
    let tables = TypeTables::of(alloc, parts)?;
    let typed = Typed {
        parts,
        tables: &tables,
    };
    Ok(first_of_statements(&Counts { typed: &typed }, parts))
}

/// What says which attributes of `it` the event in hand does not have.
#[derive(Drop)]
struct OfIt<'a> {
    typed: &'a Typed<'a>,
    on: &'a OnPart,
}

impl OfNames for OfIt<'_> {
    ghost name = { λ s x. [] };

    ghost it = { λ s a x. it_lacks s.typed.now.parts.now s.on.now x };

    fn first_of_name(&self, _spot: &Spot) -> Option<u32> {
        None
    }

    fn first_of_it(&self, _at: u32, attr: &Spot) -> Option<u32> {
        self.typed.it_lacks(self.on, attr)
    }
}

/// What says which attributes are lacked.
#[derive(Drop)]
struct Missing<'a> {
    typed: &'a Typed<'a>,
}

impl OfHandling for Missing<'_> {
    ghost says = { λ s. lacked_by_it s.typed.now.parts.now };

    fn first_said(&self, _part: &ComponentPart, on: &OnPart, stmt: &StmtPart) -> Option<u32> {
        let says = OfIt {
            typed: self.typed,
            on,
        };
        first_in_expressions(&says, stmt)
    }
}

impl Of<TestPart> for Missing<'_> {
    ghost places = { λ s t. lacks s.typed.now.parts.now t.kind t.attr };

    fn first(&self, test: &TestPart) -> Option<u32> {
        self.typed.lacks(&test.kind, &test.attr)
    }
}

impl Of<ChannelPart> for Missing<'_> {
    ghost places = { λ s k. flat_map (λ t. lacks s.typed.now.parts.now t.kind t.attr) k.plus_when ++ flat_map (λ t. lacks s.typed.now.parts.now t.kind t.attr) k.minus_when };

    fn first(&self, part: &ChannelPart) -> Option<u32> {
        let plus = first_of(self, part.plus_when.as_slice());
        earlier(plus, first_of(self, part.minus_when.as_slice()))
    }
}

impl Of<ComponentPart> for Missing<'_> {
    ghost places = { λ s c. flat_map (λ k. flat_map (λ t. lacks s.typed.now.parts.now t.kind t.attr) k.plus_when ++ flat_map (λ t. lacks s.typed.now.parts.now t.kind t.attr) k.minus_when) c.channels };

    fn first(&self, part: &ComponentPart) -> Option<u32> {
        first_of(self, part.channels.as_slice())
    }
}

/// The first attribute of `it` that the event in hand does not have.
fn lacked_by_it<'x>(typed: &'x Typed<'x>) -> Option<u32>
    ensures { result ≡ first_place (of_statements lacked_by_it typed.now.parts.now) }
{
    first_of_statements(&Missing { typed }, typed.parts)
}

/// The first attribute of a test that its event type does not have.
fn lacked_by_tests<'x>(typed: &'x Typed<'x>) -> Option<u32>
    ensures { result ≡ first_place (lacked_by_tests typed.now.parts.now) }
{
    first_of(&Missing { typed }, typed.parts.components.as_slice())
}

/// The first attribute of `it` in an event handler, or of a test of a channel, that its event type
/// does not have, at the attribute's name; `None` exactly where there is none. The error is want of
/// memory.
pub fn lacked(alloc: Global, parts: &Parts) -> Result<Option<u32>, AllocError>
    ensures { IfOk result (λ first. first ≡ first_place (lacked parts.now)) }
{
    let tables = TypeTables::of(alloc, parts)?;
    let typed = Typed {
        parts,
        tables: &tables,
    };
    Ok(earlier(lacked_by_it(&typed), lacked_by_tests(&typed)))
}
