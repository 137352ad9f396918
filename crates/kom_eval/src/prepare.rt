ghost use Rattle.std.specs.Prelude.{◌≡◌, ◌≤◌, ◌<◌, length, IfOk};
ghost use Rattle.kom_lang.specs.Declarations as declarations;
ghost use Rattle.kom_lang.specs.Declarations.{numbers_of as numbers_that};
ghost use Rattle.kom_record.specs.Reaction as reaction;
ghost use Rattle.kom_eval.specs.Wanted.{passes};

use kom_base::Copied;
use kom_lang::{Body, Handler, Handlers, On, Subs};
use kom_record::{Control, Item};
use kom_system::System;
use sqlite_items::Items;
use std::alloc::{AllocError, Global};

/// Which handlers of a type are asked for.
#[derive(Clone, Copy, Debug, PartialEq, Eq)]
pub enum Wanted {
    /// Those for Init.
    Init,
    /// Those that are subscribed at first.
    First,
}

fn is_init(on: &On) -> bool
    ensures { result ≡ declarations.is_init on.now }
{
    matches!(on, On::Init(_))
}

fn is_wanted(wanted: Wanted, handler: &Handler) -> bool
    ensures { result ≡ passes wanted handler.now }
{
    match wanted {
        Wanted::Init => is_init(&handler.on),
        Wanted::First => !handler.off && !is_init(&handler.on),
    }
}

/// The numbers of the wanted handlers, in order of declaration.
pub fn numbers_of(alloc: Global, handlers: &Handlers, wanted: Wanted) -> Result<Subs, AllocError>
    requires { length handlers.now ≤ 256 }
    ensures { IfOk result (λ numbers. numbers ≡ numbers_that (passes wanted) handlers.now) }
{
    let mut numbers = Items::new(alloc);
    for (i, handler) in handlers.as_slice().iter().enumerate() {
        if is_wanted(wanted, handler) {
            numbers.push(i as u8)?;
        }
    }
    Ok(numbers)
}

/// The body with which the handlers of an item begin, in memory of its own.
#[tactic(auto, unfolding(kom_record::specs::Reaction::prepared))]
pub fn prepared(
    alloc: Global,
    system: &System,
    body: &Body,
    item: &Item,
) -> Result<Body, AllocError>
    requires { body.now.kind < length system.now.declarations.kinds }
    ensures { IfOk result (λ b. b ≡ reaction.prepared system.now.declarations body.now item.now) }
{
    let mut prepared = body.copy(alloc)?;
    match item {
        Item::Control(Control::Init(_)) => {
            prepared.subs = numbers_of(alloc, &system.kind(body.kind).handlers, Wanted::First)?;
            prepared.initialised = true;
            Ok(prepared)
        }
        Item::Control(Control::Start) => {
            prepared.active = prepared.initialised;
            Ok(prepared)
        }
        Item::Control(Control::Stop) => {
            prepared.active = false;
            Ok(prepared)
        }
        Item::Control(Control::Fault { .. } | Control::Dump | Control::Dumped { .. })
        | Item::Arrival { .. } => Ok(prepared),
    }
}
