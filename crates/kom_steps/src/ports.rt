ghost use Rattle.std.specs.Prelude.{◌≡◌, ◌≤◌, bytes_eq, length, slice_get, if◌then◌else◌, Some, None};
ghost use Rattle.std.specs.Option.{option_and_then};
ghost use Rattle.kom_lang.specs.Steps as steps;
ghost use Rattle.kom_lang.specs.Declarations as declarations;

use crate::body::child_in;
use kom_base::Dir;
use kom_lang::{Body, Kind, Name, PortDecl};
use kom_system::System;

/// How many variables components of a type have.
pub fn count_of_vars(system: &System, kind: u16) -> usize
    ensures { result ≡ steps.count_of_vars system.now.declarations kind }
{
    if kind < system.kinds() {
        system.kind(kind).vars.len()
    } else {
        0
    }
}

/// How many levels the tree of a component type has.
pub fn height_of(system: &System, kind: u16) -> u8
    ensures { result ≡ declarations.height_of system.now.declarations kind }
{
    if kind < system.kinds() {
        system.height(kind)
    } else {
        0
    }
}

/// The port type of a channel of the component.
pub fn port_of_channel(system: &System, body: &Body, k: u8) -> u16
    ensures { result ≡ steps.port_of_channel system.now.declarations body.now k }
{
    if body.kind >= system.kinds() {
        return 0;
    }
    match system.kind(body.kind).channels.get(k as usize) {
        Some(channel) => channel.port,
        None => 0,
    }
}

fn is_same(a: &Name, b: &Name) -> bool
    ensures { result ≡ bytes_eq a.now b.now }
{
    a.bytes() == b.bytes()
}

/// The number of the port of that name.
fn port_named(kind: &Kind, name: &Name) -> Option<usize>
    ensures { result ≡ steps.port_named kind.now name.now }
{
    kind.ports
        .as_slice()
        .iter()
        .position(|p| is_same(&p.name, name))
}

/// Whether the port has that port type, and takes that end of a channel outside.
fn takes_end(port_type: u16, end: Dir, port: &PortDecl) -> bool
    ensures { result ≡ steps.takes_end port_type end port.now }
{
    port.port == port_type && port.provided == (end == Dir::Plus)
}

/// The port of that name, where an end of a channel of that port type may be plugged there.
fn port_in(kind: &Kind, port_type: u16, end: Dir, name: &Name) -> Option<u8>
    requires { length kind.now.ports ≤ 256 }
    ensures { result ≡ option_and_then (λ q. option_and_then (λ p. if steps.takes_end port_type end p then Some q else None) (slice_get kind.now.ports q)) (steps.port_named kind.now name.now) }
{
    let q = port_named(kind, name)?;
    let port = kind.ports.get(q)?;
    if takes_end(port_type, end, port) {
        Some(q as u8)
    } else {
        None
    }
}

/// The port of that name of the child in the slot, where that end of the channel may be plugged
/// there.
pub fn port_for(system: &System, body: &Body, k: u8, end: Dir, slot: u8, name: &Name) -> Option<u8>
    ensures { result ≡ steps.port_for system.now.declarations body.now k end slot name.now }
{
    let child = child_in(body, slot)?;
    if child >= system.kinds() {
        return None;
    }
    port_in(
        system.kind(child),
        port_of_channel(system, body, k),
        end,
        name,
    )
}
