ghost use Rattle.std.specs.Prelude.{◌≡◌, false};
ghost use Rattle.std.specs.List.{list_any};
ghost use Rattle.std.specs.Option.{option_map_or};
ghost use Rattle.kom_lang.specs.Declarations.{handler_of, is_fault};
ghost use Rattle.kom_record.specs.Bodies.{catches};
ghost use Rattle.kom_state.specs.Shelves.{body_at};

use crate::bodies::Bodies;
use kom_base::Comp;
use kom_lang::{Body, Kind, On, Subs};
use kom_system::System;

/// Whether a body has a fault handler subscribed.
pub fn catches_faults(system: &System, body: &Body) -> bool
    ensures { result ≡ catches system.now.declarations body.now }
{
    if body.kind >= system.kinds() {
        return false;
    }
    any_for_faults(system.kind(body.kind), &body.subs)
}

/// Whether an instance has a body, and that one a fault handler subscribed.
pub fn catches_in(system: &System, bodies: &Bodies, c: Comp) -> bool
    ensures { result ≡ option_map_or (catches system.now.declarations) (body_at bodies.now.bodies c) false }
{
    match bodies.get(c) {
        Some(body) => catches_faults(system, body),
        None => false,
    }
}

/// Whether one of these handlers of a component type handles faults.
fn any_for_faults(kind: &Kind, subs: &Subs) -> bool
    ensures { result ≡ list_any (λ h. option_map_or (λ x. is_fault x.on) (handler_of kind.now h) false) subs.now }
{
    subs.as_slice().iter().any(|h| handles_faults(kind, *h))
}

/// Whether a handler of a component type handles faults.
fn handles_faults(kind: &Kind, h: u8) -> bool
    ensures { result ≡ option_map_or (λ x. is_fault x.on) (handler_of kind.now h) false }
{
    match kind.handlers.get(h as usize) {
        Some(handler) => is_for_faults(&handler.on),
        None => false,
    }
}

fn is_for_faults(on: &On) -> bool
    ensures { result ≡ is_fault on.now }
{
    matches!(on, On::Fault { .. })
}
