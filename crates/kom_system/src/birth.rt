ghost use Rattle.std.specs.Prelude.{◌≡◌, ◌≤◌, ◌&&◌, not, if◌then◌else◌, [], length, map, IfOk};
ghost use Rattle.std.specs.List.{list_any};
ghost use Rattle.std.specs.Option.{option_map};
ghost use Rattle.kom_lang.specs.Declarations.{is_init, is_on, numbers_of};
ghost use Rattle.kom_lang.specs.Bodies.{first_vars, first_wire, is_initialised_at_birth};

use kom_base::Values;
use kom_lang::{
    Birth, ChannelDecls, Handlers, Kind, On, SlotDecls, Slots, Subs, VarDecls, Wire, Wires,
};
use sqlite_items::Items;
use std::alloc::{AllocError, Global};

/// Whether a component that is born so needs no Init.
pub fn is_initialised(kind: &Kind, birth: &Birth) -> bool
    ensures { result ≡ is_initialised_at_birth kind.now birth.now }
{
    match birth {
        Birth::Args(_) => !has_init_handler(&kind.handlers),
        Birth::State(_) => true,
    }
}

fn has_init_handler(handlers: &Handlers) -> bool
    ensures { result ≡ list_any (λ h. is_init h.on) handlers.now }
{
    handlers.as_slice().iter().any(|h| handles_init(&h.on))
}

fn handles_init(on: &On) -> bool
    ensures { result ≡ is_init on.now }
{
    matches!(on, On::Init(_))
}

/// The declared values, or the state.
pub fn vars(alloc: Global, kind: &Kind, birth: &Birth) -> Result<Values, AllocError>
    ensures { IfOk result (λ vars. vars ≡ first_vars kind.now birth.now) }
{
    match birth {
        Birth::Args(_) => declared_values(alloc, &kind.vars),
        Birth::State(values) => values.copy(alloc),
    }
}

fn declared_values(alloc: Global, vars: &VarDecls) -> Result<Values, AllocError>
    ensures { IfOk result (λ values. values ≡ map (λ v. v.first) vars.now) }
{
    let mut values = Values::new(alloc);
    for var in vars.as_slice() {
        values.push(var.first)?;
    }
    Ok(values)
}

/// The first subscriptions: all handlers but those for Init and those that are off, where the
/// component is initialised, else none.
pub fn subs(alloc: Global, handlers: &Handlers, initialised: bool) -> Result<Subs, AllocError>
    requires { length handlers.now ≤ 256 }
    ensures { IfOk result (λ subs. subs ≡ (if initialised then numbers_of is_on handlers.now else [])) }
{
    if initialised {
        numbers_of_on(alloc, handlers)
    } else {
        Ok(Items::new(alloc))
    }
}

fn numbers_of_on(alloc: Global, handlers: &Handlers) -> Result<Subs, AllocError>
    requires { length handlers.now ≤ 256 }
    ensures { IfOk result (λ subs. subs ≡ numbers_of is_on handlers.now) }
{
    let mut subs = Items::new(alloc);
    for (i, handler) in handlers.as_slice().iter().enumerate() {
        if !handler.off && !handles_init(&handler.on) {
            subs.push(i as u8)?;
        }
    }
    Ok(subs)
}

/// For each slot the type of the child that it begins with.
pub fn slots(alloc: Global, decls: &SlotDecls) -> Result<Slots, AllocError>
    ensures { IfOk result (λ slots. slots ≡ map (λ s. option_map (λ child. child.kind) s.child) decls.now) }
{
    let mut slots = Items::new(alloc);
    for slot in decls.as_slice() {
        slots.push(slot.child.as_ref().map(|child| child.kind))?;
    }
    Ok(slots)
}

/// The wires, of which those with a free end are held.
pub fn wires(alloc: Global, channels: &ChannelDecls) -> Result<Wires, AllocError>
    ensures { IfOk result (λ wires. wires ≡ map first_wire channels.now) }
{
    let mut wires = Items::new(alloc);
    for channel in channels.as_slice() {
        wires.push(Wire {
            held: channel.plus.is_none() || channel.minus.is_none(),
            plus: channel.plus,
            minus: channel.minus,
        })?;
    }
    Ok(wires)
}
