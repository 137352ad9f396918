ghost use Rattle.std.specs.Prelude.{◌≡◌, ◌++◌};
ghost use Rattle.kom_base.specs.declared.numbers.Dir.TheVariants.{Plus, Minus};
ghost use Rattle.std.specs.Option.{option_copied, option_and_then};
ghost use Rattle.kom_rules.specs.Names.{first_place};
ghost use Rattle.kom_rules.specs.Spaces as spec;
ghost use Rattle.kom_rules.specs.Fitting.{is_of_type, takes_end, of_end, untyped_end, untyped_in, untyped_ends, wrong_type, wrong_types_in, wrong_types, wrong_sign, wrong_signs_in, wrong_signs};

use crate::named::{port_named, slot_named, type_in};
use kom_base::Dir;
use kom_system::{ChannelPart, ComponentPart, EndPart, Parts, PortPart, Spot};
use kom_walks::{Of, at_if, earlier, first_of};

/// Whether a port is of a channel's port type.
pub fn is_of_type(channel: &ChannelPart, port: &PortPart) -> bool
    ensures { result ≡ is_of_type channel.now port.now }
{
    port.port.name.bytes() == channel.port.name.bytes()
}

/// Whether a half of a port takes an end: the outside half of a provided port and the inside half
/// of a required one take plus ends.
pub fn takes_end(end: Dir, port: &PortPart, outside: bool) -> bool
    ensures { result ≡ takes_end end port.now outside }
{
    let positive = port.provided == outside;
    positive == matches!(end, Dir::Plus)
}

/// The port of the child that a slot begins with.
fn port_at_slot<'a>(
    parts: &'a Parts,
    part: &ComponentPart,
    slot: &Spot,
    port: &Spot,
) -> Option<&'a PortPart>
    ensures { option_copied result ≡ option_and_then (λ s. option_and_then (λ t. spec.port_named t port.now) (spec.type_in parts.now s)) (spec.slot_named part.now slot.now) }
{
    match slot_named(part, slot) {
        Some(found) => match type_in(parts, found) {
            Some(child) => port_named(child, port),
            None => None,
        },
        None => None,
    }
}

/// An end at a slot without a type.
fn untyped_end(part: &ComponentPart, end: &EndPart) -> Option<u32>
    ensures { result ≡ first_place (untyped_end part.now end.now) }
{
    match end {
        EndPart::Child { slot, .. } => match slot_named(part, slot) {
            Some(found) => at_if(found.child.is_none(), slot.at),
            None => None,
        },
        _ => None,
    }
}

/// An end at a port of another port type.
fn wrong_type(
    parts: &Parts,
    part: &ComponentPart,
    channel: &ChannelPart,
    end: &EndPart,
) -> Option<u32>
    ensures { result ≡ first_place (of_end (wrong_type channel.now) parts.now part.now end.now) }
{
    match end {
        EndPart::Free => None,
        EndPart::Own(port) => match port_named(part, port) {
            Some(found) => at_if(!is_of_type(channel, found), port.at),
            None => None,
        },
        EndPart::Child { slot, port } => match port_at_slot(parts, part, slot, port) {
            Some(found) => at_if(!is_of_type(channel, found), port.at),
            None => None,
        },
    }
}

/// An end at a half of the wrong sign.
fn wrong_sign(parts: &Parts, part: &ComponentPart, dir: Dir, end: &EndPart) -> Option<u32>
    ensures { result ≡ first_place (of_end (wrong_sign dir) parts.now part.now end.now) }
{
    match end {
        EndPart::Free => None,
        EndPart::Own(port) => match port_named(part, port) {
            Some(found) => at_if(!takes_end(dir, found, false), port.at),
            None => None,
        },
        EndPart::Child { slot, port } => match port_at_slot(parts, part, slot, port) {
            Some(found) => at_if(!takes_end(dir, found, true), port.at),
            None => None,
        },
    }
}

#[derive(Drop)]
struct Untyped<'a> {
    part: &'a ComponentPart,
}

impl Of<ChannelPart> for Untyped<'_> {
    ghost places = { λ s k. untyped_end s.part.now k.plus ++ untyped_end s.part.now k.minus };

    fn first(&self, channel: &ChannelPart) -> Option<u32> {
        let plus = untyped_end(self.part, &channel.plus);
        earlier(plus, untyped_end(self.part, &channel.minus))
    }
}

#[derive(Drop)]
struct UntypedIn;

impl Of<ComponentPart> for UntypedIn {
    ghost places = { λ s. untyped_in };

    fn first(&self, part: &ComponentPart) -> Option<u32> {
        first_of(&Untyped { part }, part.channels.as_slice())
    }
}

/// The first end of a channel that is declared at a slot without a type, at the slot's name.
pub fn untyped_ends(parts: &Parts) -> Option<u32>
    ensures { result ≡ first_place (untyped_ends parts.now) }
{
    first_of(&UntypedIn, parts.components.as_slice())
}

#[derive(Drop)]
struct Types<'a> {
    parts: &'a Parts,
    part: &'a ComponentPart,
}

impl Of<ChannelPart> for Types<'_> {
    ghost places = { λ s k. of_end (wrong_type k) s.parts.now s.part.now k.plus ++ of_end (wrong_type k) s.parts.now s.part.now k.minus };

    fn first(&self, channel: &ChannelPart) -> Option<u32> {
        let plus = wrong_type(self.parts, self.part, channel, &channel.plus);
        let minus = wrong_type(self.parts, self.part, channel, &channel.minus);
        earlier(plus, minus)
    }
}

/// The first end of a wrong type in a component type.
fn types_in<'x>(parts: &'x Parts, part: &'x ComponentPart) -> Option<u32>
    ensures { result ≡ first_place (wrong_types_in parts.now part.now) }
{
    first_of(&Types { parts, part }, part.channels.as_slice())
}

#[derive(Drop)]
struct TypesIn<'a> {
    parts: &'a Parts,
}

impl Of<ComponentPart> for TypesIn<'_> {
    ghost places = { λ s. wrong_types_in s.parts.now };

    fn first(&self, part: &ComponentPart) -> Option<u32> {
        types_in(self.parts, part)
    }
}

/// The first end of a channel that is declared at a port that is not of the channel's port type, at
/// the port's name.
pub fn wrong_types(parts: &Parts) -> Option<u32>
    ensures { result ≡ first_place (wrong_types parts.now) }
{
    first_of(&TypesIn { parts }, parts.components.as_slice())
}

#[derive(Drop)]
struct Signs<'a> {
    parts: &'a Parts,
    part: &'a ComponentPart,
}

impl Of<ChannelPart> for Signs<'_> {
    ghost places = { λ s k. of_end (wrong_sign Plus) s.parts.now s.part.now k.plus ++ of_end (wrong_sign Minus) s.parts.now s.part.now k.minus };

    fn first(&self, channel: &ChannelPart) -> Option<u32> {
        let plus = wrong_sign(self.parts, self.part, Dir::Plus, &channel.plus);
        let minus = wrong_sign(self.parts, self.part, Dir::Minus, &channel.minus);
        earlier(plus, minus)
    }
}

/// The first end of a wrong sign in a component type.
fn signs_in<'x>(parts: &'x Parts, part: &'x ComponentPart) -> Option<u32>
    ensures { result ≡ first_place (wrong_signs_in parts.now part.now) }
{
    first_of(&Signs { parts, part }, part.channels.as_slice())
}

#[derive(Drop)]
struct SignsIn<'a> {
    parts: &'a Parts,
}

impl Of<ComponentPart> for SignsIn<'_> {
    ghost places = { λ s. wrong_signs_in s.parts.now };

    fn first(&self, part: &ComponentPart) -> Option<u32> {
        signs_in(self.parts, part)
    }
}

/// The first end of a channel that is declared at a half of the wrong sign, at the port's name.
pub fn wrong_signs(parts: &Parts) -> Option<u32>
    ensures { result ≡ first_place (wrong_signs parts.now) }
{
    first_of(&SignsIn { parts }, parts.components.as_slice())
}
