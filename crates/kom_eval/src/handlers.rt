ghost use Rattle.std.specs.Prelude.{◌≡◌, ◌==◌, ◌&&◌, ◌≤◌, ◌<◌, false, length, filter, IfOk};
ghost use Rattle.std.specs.Option.{option_map_or};
ghost use Rattle.kom_base.specs.declared.numbers.Side.TheVariants.{Outside};
ghost use Rattle.kom_lang.specs.Declarations.{handler_of, kind_of};
ghost use Rattle.kom_record.specs.Reaction as reaction;
ghost use Rattle.kom_eval.specs.Selected.{handles_control, handles_event, is_init_item};

use crate::prepare::{Wanted, numbers_of};
use kom_base::{Event, Side};
use kom_events::EventTypes;
use kom_lang::{Body, Kind, On, Subs};
use kom_record::{Control, Item};
use kom_system::System;
use sqlite_items::Items;
use std::alloc::{AllocError, Global};

fn handles_control(control: &Control, on: &On) -> bool
    ensures { result ≡ handles_control control.now on.now }
{
    match control {
        Control::Start => matches!(on, On::Start),
        Control::Stop => matches!(on, On::Stop),
        Control::Fault { .. } => matches!(on, On::Fault { .. }),
        Control::Dumped { .. } => matches!(on, On::Dumped { .. }),
        Control::Init(_) | Control::Dump => false,
    }
}

/// Whether a handler runs for an event at the outside of a port.
pub fn handles_event(types: &EventTypes, port: u8, event: &Event, on: &On) -> bool
    ensures { result ≡ handles_event types.now port event.now on.now }
{
    match on {
        On::Event { kind, port: q } => port == *q && types.is_kin(event.kind, *kind),
        _ => false,
    }
}

/// Whether a subscribed handler runs for the item.
fn handles(system: &System, item: &Item, on: &On) -> bool
    ensures { result ≡ reaction.handles system.now.declarations item.now on.now }
{
    match item {
        Item::Control(control) => handles_control(control, on),
        Item::Arrival {
            port,
            side,
            event,
            ..
        } => match side {
            Side::Outside => handles_event(system.event_types(), *port, event, on),
            Side::Inside => false,
        },
    }
}

/// Whether the handler with that number is there and runs for the item.
fn runs(system: &System, kind: &Kind, item: &Item, h: u8) -> bool
    ensures { result ≡ option_map_or (λ x. reaction.handles system.now.declarations item.now x.on) (handler_of kind.now h) false }
{
    match kind.handlers.get(h as usize) {
        Some(handler) => handles(system, item, &handler.on),
        None => false,
    }
}

/// The numbers of the subscribed handlers that run for the item, in order of subscription.
pub fn subscribed(
    alloc: Global,
    system: &System,
    kind: &Kind,
    subs: &Subs,
    item: &Item,
) -> Result<Subs, AllocError>
    ensures { IfOk result (λ numbers. numbers ≡ filter (λ h. option_map_or (λ x. reaction.handles system.now.declarations item.now x.on) (handler_of kind.now h) false) subs.now) }
{
    let mut numbers = Items::new(alloc);
    for h in subs.as_slice() {
        if runs(system, kind, item, *h) {
            numbers.push(*h)?;
        }
    }
    Ok(numbers)
}

fn is_init(item: &Item) -> bool
    ensures { result ≡ is_init_item item.now }
{
    matches!(item, Item::Control(Control::Init(_)))
}

/// The numbers of the handlers that run for the item, in the order in which they run.
pub fn handlers(
    alloc: Global,
    system: &System,
    body: &Body,
    item: &Item,
) -> Result<Subs, AllocError>
    requires { body.now.kind < length system.now.declarations.kinds }
    ensures { IfOk result (λ numbers. numbers ≡ reaction.handlers system.now.declarations body.now item.now) }
{
    let kind = system.kind(body.kind);
    if is_init(item) {
        numbers_of(alloc, &kind.handlers, Wanted::Init)
    } else {
        subscribed(alloc, system, kind, &body.subs, item)
    }
}
