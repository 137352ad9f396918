ghost use Rattle.std.specs.Prelude.{◌≡◌};
ghost use Rattle.kom_rules.specs.Names.{first_place};
ghost use Rattle.kom_rules.specs.Walks.{of_statements};
ghost use Rattle.kom_rules.specs.Spaces.{is_init};
ghost use Rattle.kom_rules.specs.Handling.{init_named, subscribed_init, misplugged_at, misplugged_target, misplugged};

use crate::ends::{is_of_type, takes_end};
use crate::named::{channel_named, handler_named, port_named};
use kom_base::Dir;
use kom_system::{ComponentPart, OnPart, Parts, Spot, StmtPart, TargetPart};
use kom_walks::{OfHandling, at_if, first_of_statements};

fn is_init(on: &OnPart) -> bool
    ensures { result ≡ is_init on.now }
{
    matches!(on, OnPart::Init(_))
}

/// The name of an init handler.
fn init_named(part: &ComponentPart, spot: &Spot) -> Option<u32>
    ensures { result ≡ first_place (init_named part.now spot.now) }
{
    match handler_named(part, spot) {
        Some(handler) => at_if(is_init(&handler.on), spot.at),
        None => None,
    }
}

#[derive(Drop)]
struct Subscribed<'a> {
    parts: &'a Parts,
}

impl OfHandling for Subscribed<'_> {
    ghost says = { λ s. subscribed_init s.parts.now };

    fn first_said(&self, part: &ComponentPart, _on: &OnPart, stmt: &StmtPart) -> Option<u32> {
        match stmt {
            StmtPart::Subscribe(spot) => init_named(part, spot),
            StmtPart::Unsubscribe(spot) => init_named(part, spot),
            _ => None,
        }
    }
}

/// The first `subscribe` or `unsubscribe` of an init handler, at the name.
pub fn subscribed_init(parts: &Parts) -> Option<u32>
    ensures { result ≡ first_place (of_statements subscribed_init parts.now) }
{
    first_of_statements(&Subscribed { parts }, parts)
}

#[derive(Drop)]
struct Plugged<'a> {
    parts: &'a Parts,
}

impl Plugged<'_> {
    /// A plug at an own port that does not take the end.
    fn at_port(&self, part: &ComponentPart, wire: &Spot, end: Dir, port: &Spot) -> Option<u32>
        ensures { result ≡ first_place (misplugged_at self.now.parts.now part.now wire.now end port.now) }
    {
        let Some(channel) = channel_named(part, wire) else {
            return None;
        };
        match port_named(part, port) {
            Some(found) => at_if(
                !(is_of_type(channel, found) && takes_end(end, found, false)),
                port.at,
            ),
            None => None,
        }
    }

    fn at_target(
        &self,
        part: &ComponentPart,
        wire: &Spot,
        end: Dir,
        target: &TargetPart,
    ) -> Option<u32>
        ensures { result ≡ first_place (misplugged_target self.now.parts.now part.now wire.now end target.now) }
    {
        match target {
            TargetPart::Own(port) => self.at_port(part, wire, end, port),
            TargetPart::Child { .. } => None,
        }
    }
}

impl OfHandling for Plugged<'_> {
    ghost says = { λ s. misplugged s.parts.now };

    fn first_said(&self, part: &ComponentPart, _on: &OnPart, stmt: &StmtPart) -> Option<u32> {
        match stmt {
            StmtPart::Plug { wire, end, target } => self.at_target(part, wire, *end, target),
            _ => None,
        }
    }
}

/// The first `plug` at a port of the component itself that is not of the channel's port type or
/// whose half has the wrong sign, at the port's name.
pub fn misplugged(parts: &Parts) -> Option<u32>
    ensures { result ≡ first_place (of_statements misplugged parts.now) }
{
    first_of_statements(&Plugged { parts }, parts)
}
