ghost use Rattle.std.specs.Prelude.{◌≡◌, ◌++◌, [], IfOk, OnOk, fold};
ghost use Rattle.std.specs.List.{flat_map};
ghost use Rattle.kom_rules.specs.Names.{first_place, with_name, names_of, each_once};
ghost use Rattle.kom_rules.specs.Spaces.{parameters};
ghost use Rattle.kom_rules.specs.Walks.{in_expressions};
ghost use Rattle.kom_rules.specs.Declaring.{unknown_event, unknown_component, unknown_port, unknown_slot, unknown_channel, unknown_handler, unknown_value, unknown_end, unknown_in_channel, unknown_in_on, unknown_target, unknown_in_one, unknown_in_handler};
ghost use Rattle.kom_lookups.specs.Tabled.{AreTables, HasNames};
ghost use Rattle.kom_system.specs.declared.parts.StmtPart.{out-StmtPart};

use crate::file::{File, unless_known};
use kom_lookups::{Names, Tables, find_by, unknown};
use kom_names::NameSet;
use kom_system::{
    ChannelPart, ComponentPart, EndPart, HandlerPart, OnPart, Parts, Spot, StmtPart, TargetPart,
};
use kom_walks::{
    InScope, Of, OfNames, Tries, earlier, first_in_expressions, first_in_scope, first_of,
};
use std::alloc::{AllocError, Global};

/// Blocks are nested no deeper in a file.
const MAX_LEVELS: u8 = 16;

/// A component type of a file, with the numbers of its names.
#[derive(Drop)]
pub struct Site<'a> {
    pub parts: &'a Parts,
    pub tables: &'a Tables,
    pub part: &'a ComponentPart,
    pub names: &'a Names,

    ghost tabled: { AreTables tables.now parts.now },
    ghost named: { HasNames names.now part.now },
}

impl Site<'_> {
    /// The file that the component type stands in.
    fn file(&self) -> File<'_>
        ensures { result.parts.now ≡ self.now.parts.now }
    {
        File::new(self.parts, self.tables)
    }

    fn port(&self, spot: &Spot) -> Option<u32>
        ensures { result ≡ first_place (unknown_port self.now.part.now spot.now) }
    {
        unknown(&self.names.ports, spot)
    }

    fn slot(&self, spot: &Spot) -> Option<u32>
        ensures { result ≡ first_place (unknown_slot self.now.part.now spot.now) }
    {
        unknown(&self.names.slots, spot)
    }

    fn channel(&self, spot: &Spot) -> Option<u32>
        ensures { result ≡ first_place (unknown_channel self.now.part.now spot.now) }
    {
        unknown(&self.names.channels, spot)
    }

    fn handler(&self, spot: &Spot) -> Option<u32>
        ensures { result ≡ first_place (unknown_handler self.now.part.now spot.now) }
    {
        unknown(&self.names.handlers, spot)
    }

    /// A name that is neither a variable nor in scope.
    fn value(&self, scope: &NameSet, spot: &Spot) -> Option<u32>
        ensures { result ≡ first_place (unknown_value self.now.part.now scope.now spot.now) }
    {
        let in_scope = scope.holds(spot.name.bytes());
        unless_known(in_scope, &self.names.vars, spot)
    }

    /// What is not declared of an end of a channel.
    fn end(&self, end: &EndPart) -> Option<u32>
        ensures { result ≡ first_place (unknown_end self.now.parts.now self.now.part.now end.now) }
    {
        match end {
            EndPart::Free => None,
            EndPart::Own(port) => self.port(port),
            EndPart::Child { slot, port } => {
                let slots = self.part.slots.as_slice();
                let of_port = match find_by(&self.names.slots, slots, slot) {
                    Some(found) => self.file().port_in(found, port),
                    None => None,
                };
                earlier(self.slot(slot), of_port)
            }
        }
    }

    fn ends(&self, part: &ChannelPart) -> Option<u32>
        ensures { result ≡ first_place (unknown_end self.now.parts.now self.now.part.now part.now.plus ++ unknown_end self.now.parts.now self.now.part.now part.now.minus) }
    {
        earlier(self.end(&part.plus), self.end(&part.minus))
    }

    fn tests(&self, part: &ChannelPart) -> Option<u32>
        ensures { result ≡ first_place (flat_map (λ t. unknown_event self.now.parts.now t.kind) part.now.plus_when ++ flat_map (λ t. unknown_event self.now.parts.now t.kind) part.now.minus_when) }
    {
        let plus = first_of(&self.file(), part.plus_when.as_slice());
        earlier(plus, first_of(&self.file(), part.minus_when.as_slice()))
    }

    fn on(&self, on: &OnPart) -> Option<u32>
        ensures { result ≡ first_place (unknown_in_on self.now.parts.now self.now.part.now on.now) }
    {
        match on {
            OnPart::Event { kind, port } => earlier(self.file().event(kind), self.port(port)),
            _ => None,
        }
    }

    fn target(&self, target: &TargetPart) -> Option<u32>
        ensures { result ≡ first_place (unknown_target self.now.part.now target.now) }
    {
        match target {
            TargetPart::Own(port) => self.port(port),
            TargetPart::Child { slot, .. } => self.slot(slot),
        }
    }

    fn created(&self, slot: &Spot, kind: &Spot) -> Option<u32>
        ensures { result ≡ first_place (unknown_slot self.now.part.now slot.now ++ unknown_component self.now.parts.now kind.now) }
    {
        earlier(self.slot(slot), self.file().component(kind))
    }

    fn triggered(&self, kind: &Spot, port: &Spot) -> Option<u32>
        ensures { result ≡ first_place (unknown_event self.now.parts.now kind.now ++ unknown_port self.now.part.now port.now) }
    {
        earlier(self.file().event(kind), self.port(port))
    }

    fn plugged(&self, wire: &Spot, target: &TargetPart) -> Option<u32>
        ensures { result ≡ first_place (unknown_channel self.now.part.now wire.now ++ unknown_target self.now.part.now target.now) }
    {
        earlier(self.channel(wire), self.target(target))
    }

    /// What is not declared of a statement, beside its expressions.
    fn one(&self, scope: &NameSet, stmt: &StmtPart) -> Option<u32>
        ensures { result ≡ first_place (unknown_in_one self.now.parts.now self.now.part.now scope.now (out-StmtPart stmt.now)) }
    {
        match stmt {
            StmtPart::Set { name, .. } => self.value(scope, name),
            StmtPart::Trigger { kind, port, .. } => self.triggered(kind, port),
            StmtPart::Answer { kind, .. } => self.file().event(kind),
            StmtPart::Create { slot, kind, .. } => self.created(slot, kind),
            StmtPart::CreateFromState { slot, kind, .. } => self.created(slot, kind),
            StmtPart::Start(slot) => self.slot(slot),
            StmtPart::Stop(slot) => self.slot(slot),
            StmtPart::Destroy(slot) => self.slot(slot),
            StmtPart::Dump(slot) => self.slot(slot),
            StmtPart::Hold(wire) => self.channel(wire),
            StmtPart::Resume(wire) => self.channel(wire),
            StmtPart::Unplug { wire, .. } => self.channel(wire),
            StmtPart::Plug { wire, target, .. } => self.plugged(wire, target),
            StmtPart::Subscribe(handler) => self.handler(handler),
            StmtPart::Unsubscribe(handler) => self.handler(handler),
            _ => None,
        }
    }

    /// What is not declared of a handler.
    fn in_handler(&self, alloc: Global, handler: &HandlerPart) -> Result<Option<u32>, AllocError>
        ensures { IfOk result (λ first. first ≡ first_place (unknown_in_handler self.now.parts.now self.now.part.now handler.now)) }
    {
        let of_on = self.on(&handler.on);
        let mut scope = scope_of(alloc, &handler.on)?;
        let block = handler.block.as_slice();
        let of_block = first_in_scope(self, alloc, MAX_LEVELS, &mut scope, block)?;
        Ok(earlier(of_on, of_block))
    }
}

/// The parameters of a handler.
fn scope_of(alloc: Global, on: &OnPart) -> Result<NameSet, AllocError>
    ensures { IfOk result (λ scope. scope ≡ each_once (names_of (parameters on.now))) }
{
    let mut scope = NameSet::new(alloc);
    match on {
        OnPart::Init(spots) => add_all(alloc, &mut scope, spots.as_slice())?,
        OnPart::Fault { slot, number } => {
            scope.add(alloc, slot.name.bytes())?;
            scope.add(alloc, number.name.bytes())?;
        }
        OnPart::Dumped { slot } => scope.add(alloc, slot.name.bytes())?,
        _ => {}
    }
    Ok(scope)
}

fn add_all(alloc: Global, scope: &mut NameSet, spots: &[Spot]) -> Result<(), AllocError>
    ensures { OnOk result (scope.new ≡ fold with_name scope.old (names_of spots.now)) }
{
    for spot in spots {
        scope.add(alloc, spot.name.bytes())?;
    }
    Ok(())
}

/// The names of expressions where some names are in scope.
#[derive(Drop)]
struct Values<'a> {
    site: &'a Site<'a>,
    scope: &'a NameSet,
}

impl OfNames for Values<'_> {
    ghost name = { λ s. unknown_value s.site.now.part.now s.scope.now };

    ghost it = { λ s a x. [] };

    fn first_of_name(&self, spot: &Spot) -> Option<u32> {
        self.site.value(self.scope, spot)
    }

    fn first_of_it(&self, _at: u32, _attr: &Spot) -> Option<u32> {
        None
    }
}

impl InScope for Site<'_> {
    ghost of = { λ s scope o. unknown_in_one s.parts.now s.part.now scope o ++ in_expressions (unknown_value s.part.now scope) (λ a x. []) o };

    fn first_standing(&self, scope: &NameSet, stmt: &StmtPart) -> Option<u32> {
        let of_one = self.one(scope, stmt);
        let values = Values { site: self, scope };
        earlier(of_one, first_in_expressions(&values, stmt))
    }
}

impl Of<ChannelPart> for Site<'_> {
    ghost places = { λ s. unknown_in_channel s.parts.now s.part.now };

    fn first(&self, part: &ChannelPart) -> Option<u32> {
        let of_type = self.file().port_type(&part.port);
        earlier(of_type, earlier(self.ends(part), self.tests(part)))
    }
}

impl Tries<HandlerPart> for Site<'_> {
    ghost tried = { λ s. unknown_in_handler s.parts.now s.part.now };

    fn try_first(&self, alloc: Global, handler: &HandlerPart) -> Result<Option<u32>, AllocError> {
        self.in_handler(alloc, handler)
    }
}
