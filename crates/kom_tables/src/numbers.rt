ghost use Rattle.std.specs.Prelude.{◌≡◌, IfOk, map};
ghost use Rattle.kom_rules.specs.Names.{names_of};
ghost use Rattle.kom_rules.specs.Spaces.{event_spots, port_type_spots, built_in_event_names, built_in_port_names, event_number as number_of_event, port_type_number as number_of_port_type, component_names, component_number as number_of_component};
ghost use Rattle.kom_lookups.specs.Numbered.{HasNumbers, number_from};

use kom_names::Numbers;
use kom_system::{Parts, Spot};
use sqlite_items::Items;
use std::alloc::{AllocError, Global};

/// How many event types are built in. They have the first numbers.
pub const BUILT_IN_EVENTS: usize = 4;

/// How many port types are built in. They have the first numbers.
pub const BUILT_IN_PORTS: usize = 2;

/// The number of a built-in event type.
fn built_in_event(name: &[u8]) -> Option<usize>
    ensures { result ≡ number_from 0 built_in_event_names name.now }
{
    if name == b"SetTimer".as_slice() {
        Some(0)
    } else if name == b"CancelTimer".as_slice() {
        Some(1)
    } else if name == b"Timeout".as_slice() {
        Some(2)
    } else if name == b"Message".as_slice() {
        Some(3)
    } else {
        None
    }
}

/// The number of a built-in port type.
fn built_in_port(name: &[u8]) -> Option<usize>
    ensures { result ≡ number_from 0 built_in_port_names name.now }
{
    if name == b"Timer".as_slice() {
        Some(0)
    } else if name == b"Network".as_slice() {
        Some(1)
    } else {
        None
    }
}

/// The number of the event type with a name, from 0, the built-in ones first; a name that no event
/// type has has the number behind the last. `declared` has the numbers of the declared ones among
/// themselves. It takes no memory, like the two calls below.
pub fn event_number(declared: &Numbers, parts: &Parts, spot: &Spot) -> usize
    requires { HasNumbers declared.now (names_of (event_spots parts.now)) }
    ensures { result ≡ number_of_event parts.now spot.now }
{
    let count = parts.events.as_slice().len();
    match built_in_event(spot.name.bytes()) {
        Some(number) => number,
        None => match declared.number(spot.name.bytes()) {
            Some(number) => BUILT_IN_EVENTS + number,
            None => BUILT_IN_EVENTS + count,
        },
    }
}

/// The same for the port type with a name.
pub fn port_type_number(declared: &Numbers, parts: &Parts, spot: &Spot) -> usize
    requires { HasNumbers declared.now (names_of (port_type_spots parts.now)) }
    ensures { result ≡ number_of_port_type parts.now spot.now }
{
    let count = parts.ports.as_slice().len();
    match built_in_port(spot.name.bytes()) {
        Some(number) => number,
        None => match declared.number(spot.name.bytes()) {
            Some(number) => BUILT_IN_PORTS + number,
            None => BUILT_IN_PORTS + count,
        },
    }
}

/// The same for the component type with a name, of which none is built in.
pub fn component_number(declared: &Numbers, parts: &Parts, spot: &Spot) -> usize
    requires { HasNumbers declared.now (component_names parts.now) }
    ensures { result ≡ number_of_component parts.now spot.now }
{
    let count = parts.components.as_slice().len();
    match declared.number(spot.name.bytes()) {
        Some(number) => number,
        None => count,
    }
}

/// The numbers of the event types with some names.
pub fn event_numbers(
    alloc: Global,
    declared: &Numbers,
    parts: &Parts,
    spots: &[Spot],
) -> Result<Items<usize>, AllocError>
    requires { HasNumbers declared.now (names_of (event_spots parts.now)) }
    ensures { IfOk result (λ list. list ≡ map (number_of_event parts.now) spots.now) }
{
    let mut list = Items::new(alloc);
    for spot in spots {
        list.push(event_number(declared, parts, spot))?;
    }
    Ok(list)
}
