ghost use Rattle.std.specs.Prelude.{◌≡◌, IfOk};
ghost use Rattle.std.specs.List.{flat_map};
ghost use Rattle.kom_rules.specs.Names.{first_place};
ghost use Rattle.kom_rules.specs.Fitting.{wrong_handled, wrong_handlers};

use crate::typed::{Typed, inwards};
use kom_fits::port_named;
use kom_system::{ComponentPart, HandlerPart, OnPart, Parts};
use kom_tables::TypeTables;
use kom_walks::{Of, first_of};
use std::alloc::{AllocError, Global};

impl Typed<'_> {
    /// The event type of a handler that may not arrive at its port.
    fn handled(&self, part: &ComponentPart, on: &OnPart) -> Option<u32>
        ensures { result ≡ first_place (wrong_handled self.now.parts.now part.now on.now) }
    {
        match on {
            OnPart::Event { kind, port } => match port_named(part, port) {
                Some(found) => self.unrelated(&found.port, inwards(found.provided), kind),
                None => None,
            },
            _ => None,
        }
    }
}

/// What says which handlers of a component type handle what may not arrive.
#[derive(Drop)]
struct Handlers<'a> {
    typed: &'a Typed<'a>,
    part: &'a ComponentPart,
}

impl Of<HandlerPart> for Handlers<'_> {
    ghost places = { λ s h. wrong_handled s.typed.now.parts.now s.part.now h.on };

    fn first(&self, handler: &HandlerPart) -> Option<u32> {
        self.typed.handled(self.part, &handler.on)
    }
}

/// The first such handler of a component type.
fn handlers_in<'x>(typed: &'x Typed<'x>, part: &'x ComponentPart) -> Option<u32>
    ensures { result ≡ first_place (flat_map (λ h. wrong_handled typed.now.parts.now part.now h.on) part.now.handlers) }
{
    first_of(&Handlers { typed, part }, part.handlers.as_slice())
}

#[derive(Drop)]
struct Components<'a> {
    typed: &'a Typed<'a>,
}

impl Of<ComponentPart> for Components<'_> {
    ghost places = { λ s c. flat_map (λ h. wrong_handled s.typed.now.parts.now c h.on) c.handlers };

    fn first(&self, part: &ComponentPart) -> Option<u32> {
        handlers_in(self.typed, part)
    }
}

/// The first event handler whose event type is neither kin nor ancestor of one that may come in at
/// its port from outside, at the event type's name; `None` exactly where there is none. The error is
/// want of memory.
pub fn wrong_handlers(alloc: Global, parts: &Parts) -> Result<Option<u32>, AllocError>
    ensures { IfOk result (λ first. first ≡ first_place (wrong_handlers parts.now)) }
{
    let tables = TypeTables::of(alloc, parts)?;
    let typed = Typed {
        parts,
        tables: &tables,
    };
    Ok(first_of(&Components { typed: &typed }, parts.components.as_slice()))
}
