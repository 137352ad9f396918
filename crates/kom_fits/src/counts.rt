ghost use Rattle.std.specs.Prelude.{◌≡◌, []};
ghost use Rattle.std.specs.List.{flat_map};
ghost use Rattle.std.specs.Option.{option_map_or};
ghost use Rattle.kom_rules.specs.Names.{first_place};
ghost use Rattle.kom_rules.specs.Walks.{of_statements};
ghost use Rattle.kom_rules.specs.Fitting.{wrong_count, wrong_child, wrong_create, wrong_slots, wrong_counts};

use crate::named::{arity, component_named};
use kom_system::{ChildPart, ComponentPart, OnPart, Parts, RootPart, SlotPart, Spot, StmtPart};
use kom_walks::{Of, OfHandling, at_if, earlier, first_of, first_of_statements};

/// What says which counts of arguments are not those of the parameters.
#[derive(Drop)]
struct Counts<'a> {
    parts: &'a Parts,
}

impl Counts<'_> {
    fn count(&self, kind: &Spot, count: usize) -> Option<u32>
        ensures { result ≡ first_place (wrong_count self.now.parts.now kind.now count) }
    {
        match component_named(self.parts, kind) {
            Some(part) => at_if(count != arity(part), kind.at),
            None => None,
        }
    }

    fn child(&self, child: &ChildPart) -> Option<u32>
        ensures { result ≡ first_place (wrong_child self.now.parts.now child.now) }
    {
        self.count(&child.kind, child.args.len())
    }
}

impl Of<SlotPart> for Counts<'_> {
    ghost places = { λ s x. option_map_or (wrong_child s.parts.now) x.child [] };

    fn first(&self, part: &SlotPart) -> Option<u32> {
        match &part.child {
            Some(child) => self.child(child),
            None => None,
        }
    }
}

impl Of<ComponentPart> for Counts<'_> {
    ghost places = { λ s c. flat_map (λ x. option_map_or (wrong_child s.parts.now) x.child []) c.slots };

    fn first(&self, part: &ComponentPart) -> Option<u32> {
        first_of(self, part.slots.as_slice())
    }
}

impl Of<RootPart> for Counts<'_> {
    ghost places = { λ s r. wrong_child s.parts.now r.child };

    fn first(&self, part: &RootPart) -> Option<u32> {
        self.child(&part.child)
    }
}

impl OfHandling for Counts<'_> {
    ghost says = { λ s. wrong_create s.parts.now };

    fn first_said(&self, _part: &ComponentPart, _on: &OnPart, stmt: &StmtPart) -> Option<u32> {
        match stmt {
            StmtPart::Create { kind, args, .. } => self.count(kind, args.len()),
            _ => None,
        }
    }
}

fn wrong_slots(parts: &Parts) -> Option<u32>
    ensures { result ≡ first_place (wrong_slots parts.now) }
{
    first_of(&Counts { parts }, parts.components.as_slice())
}

fn wrong_creates(parts: &Parts) -> Option<u32>
    ensures { result ≡ first_place (of_statements wrong_create parts.now) }
{
    first_of_statements(&Counts { parts }, parts)
}

fn wrong_roots(parts: &Parts) -> Option<u32>
    ensures { result ≡ first_place (flat_map (λ r. wrong_child parts.now r.child) parts.now.roots) }
{
    first_of(&Counts { parts }, parts.roots.as_slice())
}

/// The first root, typed slot or `create` with another count of arguments than the first init
/// handler of its component type has parameters (none without one), at the component type's name.
pub fn wrong_counts(parts: &Parts) -> Option<u32>
    ensures { result ≡ first_place (wrong_counts parts.now) }
{
    earlier(
        wrong_slots(parts),
        earlier(wrong_creates(parts), wrong_roots(parts)),
    )
}
