ghost use Rattle.std.specs.Prelude.{◌≡◌, ℕ, ◌+◌, ◌<◌, ◌≤◌, ◌^◌, ◌&&◌, ◌==◌, length, map, IfOk, Some};
ghost use Rattle.std.specs.Option.{option_and_then};
ghost use Rattle.kom_births.specs.Seeds.{half_in, link_in};
ghost use Rattle.kom_births.specs.Sprouts.{child_in, sits_in};

use crate::sprout::{Seat, Sprout};
use kom_base::{Comp, Half, Side};
use kom_lang::{ChannelDecl, Place};
use kom_wiring::Link;
use sqlite_items::Items;
use std::alloc::{AllocError, Global};

/// Whether this is slot `slot` of the instance `comp`.
fn is_seat(seat: &Option<Seat>, comp: u32, slot: u8) -> bool
    ensures { result ≡ sits_in comp slot seat.now }
{
    match seat {
        Some(seat) => seat.comp == u64::from(comp) && seat.slot == slot,
        None => false,
    }
}

/// The instance of a tree that is created in a slot of another one of it.
pub fn child_of(number: u32, sprouts: &[Sprout], comp: u32, slot: u8) -> Option<Comp>
    requires { number + length sprouts.now ≤ 2 ^ 32 }
    ensures { result ≡ child_in comp slot number sprouts.now }
{
    let mut child = None;
    for (k, sprout) in sprouts.iter().enumerate() {
        if is_seat(&sprout.seat, comp, slot) {
            child = Some(Comp(number + k as u32));
        }
    }
    child
}

/// The half that a place of an instance names: an own port from inside, or a port of the child
/// that it is created with in a slot.
fn half_of(number: u32, sprouts: &[Sprout], comp: u32, place: Place) -> Option<Half>
    requires { number + length sprouts.now ≤ 2 ^ 32 }
    ensures { result ≡ half_in number sprouts.now comp place }
{
    match place.slot {
        None => Some(Half {
            comp: Comp(comp),
            port: place.port,
            side: Side::Inside,
        }),
        Some(slot) => child_of(number, sprouts, comp, slot).map(|child| Half {
            comp: child,
            port: place.port,
            side: Side::Outside,
        }),
    }
}

/// The half at a declared end, if the end is plugged.
fn end_of(number: u32, sprouts: &[Sprout], comp: u32, place: &Option<Place>) -> Option<Half>
    requires { number + length sprouts.now ≤ 2 ^ 32 }
    ensures { result ≡ option_and_then (half_in number sprouts.now comp) place.now }
{
    match place {
        Some(place) => half_of(number, sprouts, comp, *place),
        None => None,
    }
}

/// A channel as it is declared. With a free end it is held.
fn link_of(number: u32, sprouts: &[Sprout], comp: u32, channel: &ChannelDecl) -> Link
    requires { number + length sprouts.now ≤ 2 ^ 32 }
    ensures { result ≡ link_in number sprouts.now comp channel.now }
{
    Link {
        plus: end_of(number, sprouts, comp, &channel.plus),
        minus: end_of(number, sprouts, comp, &channel.minus),
        held: channel.plus.is_none() || channel.minus.is_none(),
    }
}

/// The channels that an instance of a tree is created with. It costs the size of the tree for each
/// end that is plugged at a child. The error is want of memory.
pub fn links_of(
    alloc: Global,
    number: u32,
    sprouts: &[Sprout],
    comp: u32,
    channels: &[ChannelDecl],
) -> Result<Items<Link>, AllocError>
    requires { number + length sprouts.now ≤ 2 ^ 32 }
    ensures { IfOk result (λ links. links ≡ map (link_in number sprouts.now comp) channels.now) }
{
    Ok(Items::from_vec(list_of(alloc, number, sprouts, comp, channels)?))
}

fn list_of(
    alloc: Global,
    number: u32,
    sprouts: &[Sprout],
    comp: u32,
    channels: &[ChannelDecl],
) -> Result<Vec<Link>, AllocError>
    requires { number + length sprouts.now ≤ 2 ^ 32 }
    ensures { IfOk result (λ links. links.items ≡ map (link_in number sprouts.now comp) channels.now) }
{
    channels
        .iter()
        .map(|channel| link_of(number, sprouts, comp, channel))
        .collect(alloc)
}
