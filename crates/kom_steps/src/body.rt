ghost use Rattle.std.specs.Prelude.{◌≡◌, is_some, length, slice_set};
ghost use Rattle.std.specs.List.{list_any};
ghost use Rattle.kom_lang.specs.Steps as steps;

use kom_base::{Dir, Values};
use kom_lang::{Body, Place, Slots, Wire, Wires};

/// Gives the value with that number, if there is one, another value.
pub fn set_value(values: &mut Values, i: usize, value: i64)
    ensures { values.new ≡ slice_set values.old i value }
{
    if i < values.len() {
        values.set(i, value);
    }
}

/// The component type of the child in a slot.
pub fn child_in(body: &Body, slot: u8) -> Option<u16>
    ensures { result ≡ steps.child_in body.now slot }
{
    match body.slots.get(slot as usize) {
        Some(child) => *child,
        None => None,
    }
}

/// Fills a slot, or empties it.
pub fn set_slot(slots: &mut Slots, slot: u8, child: Option<u16>)
    ensures { slots.new ≡ slice_set slots.old slot child }
{
    if (slot as usize) < slots.len() {
        slots.set(slot as usize, child);
    }
}

/// The channel with that number, as the component knows it.
pub fn wire_of(body: &Body, k: u8) -> Wire
    ensures { result ≡ steps.wire_of body.now k }
{
    match body.wires.get(k as usize) {
        Some(wire) => *wire,
        None => Wire {
            held: true,
            plus: None,
            minus: None,
        },
    }
}

/// Changes a channel.
pub fn set_wire(wires: &mut Wires, k: u8, wire: Wire)
    ensures { wires.new ≡ slice_set wires.old k wire }
{
    if (k as usize) < wires.len() {
        wires.set(k as usize, wire);
    }
}

/// Where an end of a channel is plugged.
pub fn end_of(wire: Wire, end: Dir) -> Option<Place>
    ensures { result ≡ steps.end_of wire end }
{
    match end {
        Dir::Plus => wire.plus,
        Dir::Minus => wire.minus,
    }
}

/// The channel with an end plugged elsewhere, or free.
pub fn with_end(wire: Wire, end: Dir, place: Option<Place>) -> Wire
    ensures { result ≡ steps.with_end wire end place }
{
    match end {
        Dir::Plus => Wire {
            held: wire.held,
            plus: place,
            minus: wire.minus,
        },
        Dir::Minus => Wire {
            held: wire.held,
            plus: wire.plus,
            minus: place,
        },
    }
}

fn is_at_slot(slot: u8, place: Option<Place>) -> bool
    ensures { result ≡ steps.is_at_slot slot place }
{
    match place {
        Some(place) => place.slot == Some(slot),
        None => false,
    }
}

/// Whether an end of a channel is plugged at the child in the slot.
pub fn is_plugged_at(body: &Body, slot: u8) -> bool
    ensures { result ≡ steps.is_plugged_at body.now slot }
{
    body.wires
        .as_slice()
        .iter()
        .any(|w| is_at_slot(slot, w.plus) || is_at_slot(slot, w.minus))
}
