ghost use Rattle.std.specs.Prelude.{◌≡◌, [], List, ℕ, slice_index_or};
ghost use Rattle.kom_sysprint.specs.Canonical.{name_at, var_name, handler_name, attr_name, it_name, child_port_name};

use kom_lang::{Kind, Name, On};
use kom_lines::{Names, port_name};

/// The name with a number, and the empty one where there is none. No call here takes memory.
pub fn name_at(names: &[Name], i: usize) -> &[u8]
    ensures { result.now ≡ name_at names.now i }
{
    match names.get(i) {
        Some(name) => name.bytes(),
        None => b"",
    }
}

/// The name of a variable.
pub fn var_name(kind: &Kind, i: u8) -> &[u8]
    ensures { result.now ≡ var_name kind.now i }
{
    match kind.vars.get(i as usize) {
        Some(var) => var.name.bytes(),
        None => b"",
    }
}

/// The name of a handler.
pub fn handler_name(kind: &Kind, i: u8) -> &[u8]
    ensures { result.now ≡ handler_name kind.now i }
{
    match kind.handlers.get(i as usize) {
        Some(handler) => handler.name.bytes(),
        None => b"",
    }
}

/// The names of the attributes of an event type.
pub fn attr_names<'a>(names: &'a Names<'_>, k: u16) -> &'a [Name]
    ensures { result.now ≡ slice_index_or names.now.attr_names k [] }
{
    let system = names.system();
    system.well_formed();
    if (k as usize) < system.event_types().len() {
        system.attr_names(k).as_slice()
    } else {
        &[]
    }
}

/// The name of a port type.
pub fn port_type_name<'a>(names: &'a Names<'_>, k: u16) -> &'a [u8]
    ensures { result.now ≡ name_at names.now.port_names k }
{
    let system = names.system();
    system.well_formed();
    if (k as usize) < system.port_types().len() {
        system.port_name(k).bytes()
    } else {
        b""
    }
}

/// The name of an attribute of the event in hand.
pub fn it_name<'a>(names: &'a Names<'_>, on: &On, i: u8) -> &'a [u8]
    ensures { result.now ≡ it_name names.now on.now i }
{
    match on {
        On::Event { kind, .. } => name_at(attr_names(names, *kind), i as usize),
        _ => b"",
    }
}

/// The name of a port of the child that a slot begins with.
pub fn child_port_name<'a>(names: &'a Names<'_>, kind: &Kind, s: u8, port: u8) -> &'a [u8]
    ensures { result.now ≡ child_port_name names.now kind.now s port }
{
    match kind.slots.get(s as usize) {
        Some(slot) => match &slot.child {
            Some(child) => port_name(names.kind(child.kind), port),
            None => b"",
        },
        None => b"",
    }
}
