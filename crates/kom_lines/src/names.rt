ghost use Rattle.std.specs.Prelude.{◌≡◌, [], IfOk, slice_index_or};
ghost use Rattle.kom_lang.specs.Declarations.{kind_of, no_kind};
ghost use Rattle.kom_record.specs.Trace.{port_name, slot_name, channel_name};

use kom_lang::{Kind, Name};
use kom_system::System;
use sqlite_items::Items;
use std::alloc::{AllocError, Global};
use std::marker::Model;

/// The names of a system by number; a number that names nothing has the empty name. Contracts see
/// the system.
#[derive(Drop)]
pub struct Names<'s> {
    system: &'s System,
    /// The type for a number that no component type has.
    none: Kind,
}

impl<'s> Model for Names<'s> {
    ghost use Rattle.std.specs.Prelude.{◌≡◌};
    ghost use Rattle.std.specs.Coded.{codes};
    ghost use Rattle.kom_lang.specs.contracts.stmt.Stmt as statement;
    ghost use Rattle.kom_lang.specs.Declarations.{no_kind};
    ghost use Rattle.kom_system.specs.Contents.{Contents};

    ghost Value = { Contents };

    ghost coded = { Prim.hlevel (codes, statement.the_row.coded) };

    ghost view = { λ n. n.system.now };

    ghost invariant = { λ n. n.none ≡ no_kind };
}

/// A component type with nothing, and without a name.
fn nameless(alloc: Global) -> Result<Kind, AllocError>
    ensures { IfOk result (λ kind. kind ≡ no_kind) }
{
    Ok(Kind {
        name: Name::of(alloc, b"")?,
        ports: Items::new(alloc),
        vars: Items::new(alloc),
        slots: Items::new(alloc),
        channels: Items::new(alloc),
        handlers: Items::new(alloc),
    })
}

impl<'s> Names<'s> {
    /// The names of a system. The error is want of memory.
    pub fn of(alloc: Global, system: &'s System) -> Result<Names<'s>, AllocError>
        ensures { IfOk result (λ names. names ≡ system.now) }
    {
        let none = nameless(alloc)?;
        Ok(Names { system, none })
    }

    /// The system. It takes no memory.
    pub fn system(&self) -> &System
        ensures { result.now ≡ self.now }
    {
        self.system
    }

    /// The component type with a number. It takes no memory, like the names below.
    pub fn kind(&self, k: u16) -> &Kind
        ensures { result.now ≡ kind_of self.now.declarations k }
    {
        if k < self.system.kinds() {
            self.system.kind(k)
        } else {
            &self.none
        }
    }

    /// The type of a component whose type is not known.
    pub fn no_kind(&self) -> &Kind
        ensures { result.now ≡ no_kind }
    {
        &self.none
    }

    /// The name of an event type.
    pub fn event(&self, k: u16) -> &[u8]
        ensures { result.now ≡ slice_index_or self.now.event_names k [] }
    {
        self.system.well_formed();
        if (k as usize) < self.system.event_types().len() {
            self.system.event_name(k).bytes()
        } else {
            b""
        }
    }
}

/// The name of a port of a component type.
pub fn port_name(kind: &Kind, q: u8) -> &[u8]
    ensures { result.now ≡ port_name kind.now q }
{
    match kind.ports.get(q as usize) {
        Some(port) => port.name.bytes(),
        None => b"",
    }
}

/// The name of a slot of a component type.
pub fn slot_name(kind: &Kind, s: u8) -> &[u8]
    ensures { result.now ≡ slot_name kind.now s }
{
    match kind.slots.get(s as usize) {
        Some(slot) => slot.name.bytes(),
        None => b"",
    }
}

/// The name of a channel of a component type.
pub fn channel_name(kind: &Kind, x: u8) -> &[u8]
    ensures { result.now ≡ channel_name kind.now x }
{
    match kind.channels.get(x as usize) {
        Some(channel) => channel.name.bytes(),
        None => b"",
    }
}
