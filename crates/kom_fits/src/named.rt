ghost use Rattle.std.specs.Prelude.{◌≡◌};
ghost use Rattle.std.specs.Option.{option_copied, option_and_then};
ghost use Rattle.kom_rules.specs.Spaces as spec;

use kom_lookups::find;
use kom_system::{
    ChannelPart, ComponentPart, HandlerPart, OnPart, Parts, PortPart, SlotPart, Spot,
};

/// The component type with a name. It takes no memory, like all look-ups below.
pub fn component_named<'a>(parts: &'a Parts, spot: &Spot) -> Option<&'a ComponentPart>
    ensures { option_copied result ≡ spec.component_named parts.now spot.now }
{
    find(parts.components.as_slice(), spot)
}

/// The port with a name.
pub fn port_named<'a>(part: &'a ComponentPart, spot: &Spot) -> Option<&'a PortPart>
    ensures { option_copied result ≡ spec.port_named part.now spot.now }
{
    find(part.ports.as_slice(), spot)
}

/// The slot with a name.
pub fn slot_named<'a>(part: &'a ComponentPart, spot: &Spot) -> Option<&'a SlotPart>
    ensures { option_copied result ≡ spec.slot_named part.now spot.now }
{
    find(part.slots.as_slice(), spot)
}

/// The channel with a name.
pub fn channel_named<'a>(part: &'a ComponentPart, spot: &Spot) -> Option<&'a ChannelPart>
    ensures { option_copied result ≡ spec.channel_named part.now spot.now }
{
    find(part.channels.as_slice(), spot)
}

/// The handler with a name.
pub fn handler_named<'a>(part: &'a ComponentPart, spot: &Spot) -> Option<&'a HandlerPart>
    ensures { option_copied result ≡ spec.handler_named part.now spot.now }
{
    find(part.handlers.as_slice(), spot)
}

/// The component type in a slot, where it has one that is declared.
pub fn type_in<'a>(parts: &'a Parts, slot: &SlotPart) -> Option<&'a ComponentPart>
    ensures { option_copied result ≡ spec.type_in parts.now slot.now }
{
    match &slot.child {
        Some(child) => component_named(parts, &child.kind),
        None => None,
    }
}

/// How many arguments a component of a type is created with.
pub fn arity(part: &ComponentPart) -> usize
    ensures { result ≡ spec.arity part.now }
{
    for handler in part.handlers.as_slice() {
        if let OnPart::Init(spots) = &handler.on {
            return spots.len();
        }
    }
    0
}
