ghost use Rattle.std.specs.Prelude.{◌≡◌, ◌<◌, length, slice_get, IfOk, Some};

use crate::birth;
use crate::declared::Declared;
use crate::heights::{height_at, heights};
use kom_events::{EventRow, EventTypes, PortRow, PortTypes};
use kom_lang::{Birth, Body, Child, Kind, Name, Names};
use sqlite_items::Items;
use std::alloc::{AllocError, Global};
use std::marker::Model;

/// A system of which no number names what is not there. Contracts see its declarations with their
/// names, and its version.
#[derive(Drop)]
pub struct System {
    declared: Declared,

    /// For each component type the height of its tree.
    heights: Items<u8>,
}

impl Model for System {
    ghost use Rattle.std.specs.Prelude.{◌≡◌, ℕ, length, slice_index_or};
    ghost use Rattle.std.specs.Coded.{codes};
    ghost use Rattle.kom_lang.specs.contracts.stmt.Stmt as statement;
    ghost use Rattle.kom_lang.specs.Declarations.{height as height_at};
    ghost use Rattle.kom_system.specs.Contents.{Contents, contents_of};
    ghost use Rattle.kom_system.specs.WellFormed.{IsWellFormed};

    ghost Value = { Contents };

    ghost coded = { Prim.hlevel (codes, statement.the_row.coded) };

    ghost view = { λ s. contents_of s.declared };

    ghost invariant = { λ s. IsWellFormed (contents_of s.declared) × ((k : ℕ) → slice_index_or s.heights k 0 ≡ height_at (length s.declared.kinds) s.declared.kinds k) };
}

impl System {
    ghost use Rattle.kom_lang.specs.Declarations.{height_of, kind_of};
    ghost use Rattle.kom_lang.specs.Bodies.{first_body};
    ghost use Rattle.kom_system.specs.Contents.{contents_of, upgraded};
    ghost use Rattle.kom_system.specs.WellFormed.{IsWellFormed, KindFits};

    /// The system that these declarations make.
    pub fn from_declared(alloc: Global, declared: Declared) -> Result<System, AllocError>
        requires { IsWellFormed (contents_of declared) }
        ensures { IfOk result (λ system. system ≡ contents_of declared) }
    {
        let heights = heights(alloc, &declared.kinds)?;
        Ok(System { declared, heights })
    }

    /// The version of the system file, 1 or 2.
    pub fn version(&self) -> u8
        ensures { result ≡ self.now.version }
    {
        self.declared.version
    }

    /// The same system with version 2. It takes no memory.
    pub fn upgrade(self) -> System
        ensures { result ≡ upgraded self }
    {
        let System {
            mut declared,
            heights,
        } = self;
        declared.version = 2;
        System { declared, heights }
    }

    /// The event types. It takes no memory, like all readers below.
    pub fn event_types(&self) -> &EventTypes
        ensures { result.now ≡ self.now.declarations.events }
    {
        &self.declared.event_types
    }

    /// The port types.
    pub fn port_types(&self) -> &PortTypes
        ensures { result.now ≡ self.now.declarations.ports }
    {
        &self.declared.port_types
    }

    /// How many component types there are.
    pub fn kinds(&self) -> u16
        ensures { result ≡ length self.now.declarations.kinds }
    {
        self.declared.kinds.len() as u16
    }

    /// The component type of a number, and that its numbers name what they should.
    pub fn kind(&self, k: u16) -> &Kind
        requires { k < length self.now.declarations.kinds }
        ensures value { result.now ≡ kind_of self.now.declarations k }
        ensures fits { KindFits self.now.declarations k }
    {
        &self.declared.kinds.as_slice()[k as usize]
    }

    /// The component type of the root, with its arguments.
    pub fn root(&self) -> &Child
        ensures { result.now ≡ self.now.declarations.root }
    {
        &self.declared.root
    }

    /// How many levels the tree of a component type has: 1 where it has no typed slots.
    pub fn height(&self, k: u16) -> u8
        requires { k < length self.now.declarations.kinds }
        ensures { result ≡ height_of self.now.declarations k }
    {
        height_at(&self.heights, k)
    }

    /// The name of an event type.
    pub fn event_name(&self, k: u16) -> &Name
        requires { k < length self.now.declarations.events }
        ensures { slice_get self.now.event_names k ≡ Some result.now }
    {
        &self.declared.event_names.as_slice()[k as usize]
    }

    /// The row of an event type.
    pub fn event_row(&self, k: u16) -> &EventRow
        requires { k < length self.now.declarations.events }
        ensures { slice_get self.now.declarations.events k ≡ Some result.now }
    {
        self.declared.event_types.row(k)
    }

    /// The names of the attributes of an event type, inherited ones first.
    pub fn attr_names(&self, k: u16) -> &Names
        requires { k < length self.now.declarations.events }
        ensures { slice_get self.now.attr_names k ≡ Some result.now }
    {
        &self.declared.attr_names.as_slice()[k as usize]
    }

    /// The name of a port type.
    pub fn port_name(&self, k: u16) -> &Name
        requires { k < length self.now.declarations.ports }
        ensures { slice_get self.now.port_names k ≡ Some result.now }
    {
        &self.declared.port_names.as_slice()[k as usize]
    }

    /// The row of a port type.
    pub fn port_row(&self, k: u16) -> &PortRow
        requires { k < length self.now.declarations.ports }
        ensures { slice_get self.now.declarations.ports k ≡ Some result.now }
    {
        self.declared.port_types.row(k)
    }

    /// The first body of a component of a type: that with its declared values where it is created
    /// with arguments, that with the state where it is created from one.
    pub fn body_of(
        &self,
        alloc: Global,
        kind: u16,
        birth: &Birth,
        depth: u8,
    ) -> Result<Body, AllocError>
        requires { kind < length self.now.declarations.kinds }
        ensures { IfOk result (λ body. body ≡ first_body self.now.declarations kind birth.now depth) }
    {
        let declared = self.kind(kind);
        let initialised = birth::is_initialised(declared, birth);
        Ok(Body {
            kind,
            vars: birth::vars(alloc, declared, birth)?,
            subs: birth::subs(alloc, &declared.handlers, initialised)?,
            slots: birth::slots(alloc, &declared.slots)?,
            wires: birth::wires(alloc, &declared.channels)?,
            depth,
            active: false,
            initialised,
        })
    }

    /// Each number in a system names what it should. The call gives a proof this fact, and does
    /// nothing else.
    pub fn well_formed(&self)
        ensures { IsWellFormed self.now }
    {
        let _version = self.declared.version;
    }
}
