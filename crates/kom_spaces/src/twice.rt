ghost use Rattle.std.specs.Prelude.{◌≡◌, IfOk, map};
ghost use Rattle.std.specs.List.{flat_map};
ghost use Rattle.kom_rules.specs.Names.{first_place, is_among, at_if as at_if_so, repeated};
ghost use Rattle.kom_rules.specs.Spaces.{built_in_event_names, built_in_port_names};
ghost use Rattle.kom_rules.specs.Declaring.{built_in, declared_twice, events_twice, port_types_twice, components_twice, name_clashes};

use crate::clashes::in_component;
use crate::declares::{Declares, first_later, note_all};
use kom_names::Earliest;
use kom_system::{ComponentPart, EventPart, Parts, PortTypePart};
use kom_walks::{Of, Tries, at_if, earlier, first_of, try_first_of};
use std::alloc::{AllocError, Global};

/// Whether a name is that of a built-in event type.
pub fn is_built_in_event(name: &[u8]) -> bool
    ensures { result ≡ is_among built_in_event_names name.now }
{
    name == b"SetTimer".as_slice()
        || name == b"CancelTimer".as_slice()
        || name == b"Timeout".as_slice()
        || name == b"Message".as_slice()
}

/// Whether a name is that of a built-in port type.
pub fn is_built_in_port(name: &[u8]) -> bool
    ensures { result ≡ is_among built_in_port_names name.now }
{
    name == b"Timer".as_slice() || name == b"Network".as_slice()
}

/// What says which event types have built-in names.
#[derive(Drop)]
struct BuiltInEvents;

impl Of<EventPart> for BuiltInEvents {
    ghost places = { λ s x. at_if_so (is_among built_in_event_names x.name.name) x.name.at };

    fn first(&self, part: &EventPart) -> Option<u32> {
        at_if(is_built_in_event(part.name.name.bytes()), part.name.at)
    }
}

/// What says which port types have built-in names.
#[derive(Drop)]
struct BuiltInPorts;

impl Of<PortTypePart> for BuiltInPorts {
    ghost places = { λ s x. at_if_so (is_among built_in_port_names x.name.name) x.name.at };

    fn first(&self, part: &PortTypePart) -> Option<u32> {
        at_if(is_built_in_port(part.name.name.bytes()), part.name.at)
    }
}

/// What says of component types which of their names clash.
#[derive(Drop)]
struct Inside;

impl Tries<ComponentPart> for Inside {
    ghost tried = { λ s. name_clashes };

    fn try_first(&self, alloc: Global, part: &ComponentPart) -> Result<Option<u32>, AllocError> {
        in_component(alloc, part)
    }
}

/// The first name of some parts that has an equal one before it in the text.
fn first_repeated_of<T: Declares>(alloc: Global, parts: &[T]) -> Result<Option<u32>, AllocError>
    ensures { IfOk result (λ first. first ≡ first_place (repeated (map T.named parts.now))) }
{
    let mut places = Earliest::new(alloc);
    note_all(alloc, &mut places, parts)?;
    Ok(first_later(&places, parts))
}

fn first_built_in_event(events: &[EventPart]) -> Option<u32>
    ensures { result ≡ first_place (built_in built_in_event_names (map (λ e. e.name) events.now)) }
{
    first_of(&BuiltInEvents, events)
}

fn first_built_in_port(ports: &[PortTypePart]) -> Option<u32>
    ensures { result ≡ first_place (built_in built_in_port_names (map (λ t. t.name) ports.now)) }
{
    first_of(&BuiltInPorts, ports)
}

fn events_twice(alloc: Global, parts: &Parts) -> Result<Option<u32>, AllocError>
    ensures { IfOk result (λ first. first ≡ first_place (events_twice parts.now)) }
{
    let events = parts.events.as_slice();
    let repeated = first_repeated_of(alloc, events)?;
    Ok(earlier(repeated, first_built_in_event(events)))
}

fn port_types_twice(alloc: Global, parts: &Parts) -> Result<Option<u32>, AllocError>
    ensures { IfOk result (λ first. first ≡ first_place (port_types_twice parts.now)) }
{
    let ports = parts.ports.as_slice();
    let repeated = first_repeated_of(alloc, ports)?;
    Ok(earlier(repeated, first_built_in_port(ports)))
}

fn components_twice(alloc: Global, parts: &Parts) -> Result<Option<u32>, AllocError>
    ensures { IfOk result (λ first. first ≡ first_place (components_twice parts.now)) }
{
    let components = parts.components.as_slice();
    let repeated = first_repeated_of(alloc, components)?;
    let inside = try_first_of(&Inside, alloc, components)?;
    Ok(earlier(repeated, inside))
}

/// The first name that is declared twice in its space, or is a built-in one of its space, or is a
/// parameter or a `let` name and equal to a name of the component type's space or to one in scope;
/// of two equal names the later one in the text. `None` exactly where there is none. The error is
/// want of memory.
pub fn declared_twice(alloc: Global, parts: &Parts) -> Result<Option<u32>, AllocError>
    ensures { IfOk result (λ first. first ≡ first_place (declared_twice parts.now)) }
{
    let events = events_twice(alloc, parts)?;
    let ports = port_types_twice(alloc, parts)?;
    let components = components_twice(alloc, parts)?;
    Ok(earlier(events, earlier(ports, components)))
}
