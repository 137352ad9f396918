ghost use Rattle.std.specs.Prelude.{◌≡◌, IfOk};
ghost use Rattle.kom_rules.specs.Names.{first_place};
ghost use Rattle.kom_lookups.specs.Tabled.{AreTables};
ghost use Rattle.kom_rules.specs.Declaring.{unknown_types, unknown_inside, unknown_in_component, unknown_in_types, unknown_in_components, undeclared};

use crate::file::File;
use crate::site::Site;
use kom_lookups::{Names, Tables};
use kom_system::{ComponentPart, Parts};
use kom_walks::{Tries, earlier, first_of, try_first_of};
use std::alloc::{AllocError, Global};

impl File<'_> {
    /// What is not declared of the types of ports and slots.
    fn types(&self, part: &ComponentPart) -> Option<u32>
        ensures { result ≡ first_place (unknown_types self.now.parts.now part.now) }
    {
        let of_ports = first_of(self, part.ports.as_slice());
        earlier(of_ports, first_of(self, part.slots.as_slice()))
    }

    /// What is not declared of event types and port types.
    fn event_types(&self) -> Option<u32>
        ensures { result ≡ first_place (unknown_in_types self.now.parts.now) }
    {
        let of_events = first_of(self, self.parts.events.as_slice());
        earlier(of_events, first_of(self, self.parts.ports.as_slice()))
    }

    /// What is not declared of component types and roots.
    fn component_types(&self, alloc: Global) -> Result<Option<u32>, AllocError>
        ensures { IfOk result (λ first. first ≡ first_place (unknown_in_components self.now.parts.now)) }
    {
        let components = try_first_of(self, alloc, self.parts.components.as_slice())?;
        Ok(earlier(components, first_of(self, self.parts.roots.as_slice())))
    }
}

/// What is not declared of channels and handlers.
fn in_site(alloc: Global, site: &Site<'_>) -> Result<Option<u32>, AllocError>
    ensures { IfOk result (λ first. first ≡ first_place (unknown_inside site.now.parts.now site.now.part.now)) }
{
    let channels = first_of(site, site.part.channels.as_slice());
    let handlers = try_first_of(site, alloc, site.part.handlers.as_slice())?;
    Ok(earlier(channels, handlers))
}

impl Tries<ComponentPart> for File<'_> {
    ghost tried = { λ s. unknown_in_component s.parts.now };

    fn try_first(&self, alloc: Global, part: &ComponentPart) -> Result<Option<u32>, AllocError> {
        in_component(alloc, self.parts, self.tables, part)
    }
}

/// What is not declared in a component type.
fn in_component<'x>(
    alloc: Global,
    parts: &'x Parts,
    tables: &'x Tables,
    part: &'x ComponentPart,
) -> Result<Option<u32>, AllocError>
    requires { AreTables tables.now parts.now }
    ensures { IfOk result (λ first. first ≡ first_place (unknown_in_component parts.now part.now)) }
{
    let names = Names::of(alloc, part)?;
    let site = Site {
        parts,
        tables,
        part,
        names: &names,
    };
    let inside = in_site(alloc, &site)?;
    let types = File::new(parts, tables).types(part);
    Ok(earlier(types, inside))
}

/// The first name that is not declared as what its place needs; attributes are no matter of this
/// rule. The port of a channel's end at a slot is looked up only where the slot has a type that is
/// declared, and that of `plug` at a slot never. `None` exactly where there is none. The error is
/// want of memory.
pub fn undeclared(alloc: Global, parts: &Parts) -> Result<Option<u32>, AllocError>
    ensures { IfOk result (λ first. first ≡ first_place (undeclared parts.now)) }
{
    let tables = Tables::of(alloc, parts)?;
    let file = File::new(parts, &tables);
    let inside = file.component_types(alloc)?;
    Ok(earlier(file.event_types(), inside))
}
