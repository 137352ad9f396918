ghost use Rattle.std.specs.Prelude.{◌≡◌, true, [], fold, slice_index_or, IfOk, OnOk};
ghost use Rattle.kom_lookups.specs.Tabled.{AreTables, HasNames};
ghost use Rattle.kom_resolve.specs.Counted.{IsCounted, has_short_lists};
ghost use Rattle.kom_resolve.specs.Resolved.{attributes_of_it, child_value, port_value, var_value, slot_value, test_value, channel_value, handler_value, kind_value, block_value};
ghost use Rattle.kom_rules.specs.Names.{names_of, with_name, each_once};
ghost use Rattle.kom_resolve.specs.Attributed.{AreAttributes};
ghost use Rattle.kom_rules.specs.Spaces.{event_number, attribute_names, parameters};
ghost use Rattle.kom_rules.specs.Walks.{max_levels};

use crate::all::{Resolves, resolve_all};
use crate::blocks::block;
use crate::handling::Handling;
use crate::numbers::{File, number_among};
use crate::site::Site;
use kom_base::Copied;
use kom_events::Test;
use kom_lang::{
    Block, ChannelDecl, Child, Handler, Kind, Name, Names as AttrNames, PortDecl, SlotDecl, VarDecl,
};
use kom_lookups::{Names, Tables};
use kom_names::NameSet;
use kom_system::{
    ChannelPart, ChildPart, ComponentPart, HandlerPart, OnPart, Parts, PortPart, SlotPart, Spot,
    TestPart, VarPart,
};
use sqlite_items::Items;
use std::alloc::{AllocError, Global};

/// Blocks are nested no deeper in a file.
const MAX_LEVELS: u8 = 16;

/// The names of the attributes of an event type; none for a number that no type has.
fn attributes_in(lists: &Items<AttrNames>, kind: u16) -> &[Name]
    ensures { result.now ≡ slice_index_or lists.now kind [] }
{
    match lists.get(kind as usize) {
        Some(names) => names.as_slice(),
        None => &[],
    }
}

/// A syntax tree with its tables and the names of the attributes of its event types.
#[derive(Drop)]
pub struct Whole<'a> {
    pub parts: &'a Parts,
    pub tables: &'a Tables,
    pub attrs: &'a Items<AttrNames>,

    ghost tabled: { AreTables tables.now parts.now },
    ghost counted: { IsCounted parts.now },
    ghost attributed: { AreAttributes attrs.now parts.now },
}

impl<'a> Whole<'a> {
    /// The file without the attributes.
    fn file(&self) -> File<'a>
        ensures { result.parts.now ≡ self.now.parts.now }
    {
        File {
            parts: self.parts,
            tables: self.tables,
        }
    }

    /// The names of the attributes of an event type.
    fn attributes(&self, kind: &Spot) -> &'a [Name]
        ensures { result.now ≡ attribute_names self.now.parts.now (event_number self.now.parts.now kind.now) }
    {
        attributes_in(self.attrs, self.file().event(kind))
    }

    /// The names of the attributes of `it`.
    fn attributes_of_it(&self, on: &OnPart) -> &'a [Name]
        ensures { result.now ≡ attributes_of_it self.now.parts.now on.now }
    {
        match on {
            OnPart::Event { kind, .. } => self.attributes(kind),
            _ => &[],
        }
    }

    /// A component type with its arguments.
    pub fn child(&self, alloc: Global, child: &ChildPart) -> Result<Child, AllocError>
        ensures { IfOk result (λ c. c ≡ child_value self.now.parts.now child.now) }
    {
        Ok(Child {
            kind: self.file().component(&child.kind),
            args: child.args.copy(alloc)?,
        })
    }
}

impl Resolves<PortPart, PortDecl> for Whole<'_> {
    ghost value = { λ s. port_value s.parts.now };

    fn resolve(&self, alloc: Global, part: &PortPart) -> Result<PortDecl, AllocError> {
        Ok(PortDecl {
            name: part.name.name.copy(alloc)?,
            port: self.file().port_type(&part.port),
            provided: part.provided,
        })
    }
}

impl Resolves<VarPart, VarDecl> for Whole<'_> {
    ghost value = { λ s. var_value };

    fn resolve(&self, alloc: Global, part: &VarPart) -> Result<VarDecl, AllocError> {
        Ok(VarDecl {
            name: part.name.name.copy(alloc)?,
            first: part.first,
        })
    }
}

impl Resolves<SlotPart, SlotDecl> for Whole<'_> {
    ghost value = { λ s. slot_value s.parts.now };

    fn resolve(&self, alloc: Global, part: &SlotPart) -> Result<SlotDecl, AllocError> {
        Ok(SlotDecl {
            name: part.name.name.copy(alloc)?,
            child: match &part.child {
                Some(child) => Some(self.child(alloc, child)?),
                None => None,
            },
        })
    }
}

impl Resolves<TestPart, Test> for Whole<'_> {
    ghost value = { λ s. test_value s.parts.now };

    fn resolve(&self, _alloc: Global, part: &TestPart) -> Result<Test, AllocError> {
        Ok(Test {
            kind: self.file().event(&part.kind),
            attr: number_among(self.attributes(&part.kind), &part.attr),
            op: part.op,
            number: part.number,
        })
    }
}

/// A component type of a file, with the numbers of its names and the names of attributes.
#[derive(Drop)]
pub struct Inner<'a> {
    pub whole: &'a Whole<'a>,
    pub part: &'a ComponentPart,
    pub names: &'a Names,

    ghost named: { HasNames names.now part.now },
    ghost short: { has_short_lists part.now ≡ true },
}

impl<'a> Inner<'a> {
    fn site(&self) -> Site<'a>
        ensures parts { result.parts.now ≡ self.now.whole.now.parts.now }
        ensures part { result.part.now ≡ self.now.part.now }
    {
        Site {
            parts: self.whole.parts,
            tables: self.whole.tables,
            part: self.part,
            names: self.names,
        }
    }

    fn handling(&self, on: &'a OnPart) -> Handling<'a>
        ensures parts { result.parts.now ≡ self.now.whole.now.parts.now }
        ensures part { result.part.now ≡ self.now.part.now }
        ensures on { result.on.now ≡ on.now }
    {
        Handling {
            parts: self.whole.parts,
            tables: self.whole.tables,
            part: self.part,
            names: self.names,
            on,
            attrs: self.whole.attributes_of_it(on),
        }
    }

    /// The statements of a handler.
    fn block(&self, alloc: Global, part: &'a HandlerPart) -> Result<Block, AllocError>
        ensures { IfOk result (λ b. b ≡ block_value self.now.whole.now.parts.now self.now.part.now part.now.on max_levels (each_once (names_of (parameters part.now.on))) part.now.block) }
    {
        let mut scope = scope_of(alloc, &part.on)?;
        block(
            &self.handling(&part.on),
            alloc,
            MAX_LEVELS,
            &mut scope,
            part.block.as_slice(),
        )
    }
}

/// The names of the parameters, each once.
fn scope_of(alloc: Global, on: &OnPart) -> Result<NameSet, AllocError>
    ensures { IfOk result (λ scope. scope ≡ each_once (names_of (parameters on.now))) }
{
    let mut scope = NameSet::new(alloc);
    match on {
        OnPart::Init(spots) => add_each(alloc, &mut scope, spots.as_slice())?,
        OnPart::Fault { slot, number } => {
            scope.add(alloc, slot.name.bytes())?;
            scope.add(alloc, number.name.bytes())?;
        }
        OnPart::Dumped { slot } => scope.add(alloc, slot.name.bytes())?,
        OnPart::Event { .. } | OnPart::Start | OnPart::Stop => {}
    }
    Ok(scope)
}

/// Adds the names of some spots, each once.
fn add_each(alloc: Global, scope: &mut NameSet, spots: &[Spot]) -> Result<(), AllocError>
    ensures { OnOk result (scope.new ≡ fold with_name scope.old (names_of spots.now)) }
{
    for spot in spots {
        scope.add(alloc, spot.name.bytes())?;
    }
    Ok(())
}

impl Resolves<ChannelPart, ChannelDecl> for Inner<'_> {
    ghost value = { λ s. channel_value s.whole.now.parts.now s.part.now };

    fn resolve(&self, alloc: Global, part: &ChannelPart) -> Result<ChannelDecl, AllocError> {
        let site = self.site();
        Ok(ChannelDecl {
            name: part.name.name.copy(alloc)?,
            port: site.file().port_type(&part.port),
            plus: site.end(&part.plus),
            minus: site.end(&part.minus),
            plus_when: resolve_all(self.whole, alloc, part.plus_when.as_slice())?,
            minus_when: resolve_all(self.whole, alloc, part.minus_when.as_slice())?,
        })
    }
}

impl Resolves<HandlerPart, Handler> for Inner<'_> {
    ghost value = { λ s. handler_value s.whole.now.parts.now s.part.now };

    fn resolve(&self, alloc: Global, part: &HandlerPart) -> Result<Handler, AllocError> {
        Ok(Handler {
            name: part.name.name.copy(alloc)?,
            on: self.site().on(alloc, &part.on)?,
            off: part.off,
            block: self.block(alloc, part)?,
        })
    }
}

impl Inner<'_> {
    /// The component type.
    pub fn kind(&self, alloc: Global) -> Result<Kind, AllocError>
        ensures { IfOk result (λ k. k ≡ kind_value self.now.whole.now.parts.now self.now.part.now) }
    {
        Ok(Kind {
            name: self.part.name.name.copy(alloc)?,
            ports: resolve_all(self.whole, alloc, self.part.ports.as_slice())?,
            vars: resolve_all(self.whole, alloc, self.part.vars.as_slice())?,
            slots: resolve_all(self.whole, alloc, self.part.slots.as_slice())?,
            channels: resolve_all(self, alloc, self.part.channels.as_slice())?,
            handlers: resolve_all(self, alloc, self.part.handlers.as_slice())?,
        })
    }
}
