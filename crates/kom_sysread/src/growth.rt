ghost use Rattle.std.specs.Prelude.{◌≡◌, IfOk};
ghost use Rattle.kom_sysread.specs.Reading as spec;

use kom_base::Dir;
use kom_grammar::{DeclPart, ItemPart};
use kom_system::{ComponentPart, Parts, PortTypePart, Spot};
use sqlite_items::Items;
use std::alloc::{AllocError, Global};

/// A port type without event types.
pub fn no_lines(alloc: Global, name: Spot) -> PortTypePart
    ensures { result ≡ spec.no_lines name }
{
    PortTypePart {
        name,
        plus: Items::new(alloc),
        minus: Items::new(alloc),
    }
}

/// One more event type in a direction of a port type.
pub fn add_line(port: &mut PortTypePart, direction: Dir, kind: Spot) -> Result<(), AllocError>
    ensures { IfOk result (λ _. port.new ≡ spec.add_line port.old (direction, kind)) }
{
    match direction {
        Dir::Plus => port.plus.push(kind),
        Dir::Minus => port.minus.push(kind),
    }
}

/// A component type without declarations.
pub fn no_items(alloc: Global, name: Spot) -> ComponentPart
    ensures { result ≡ spec.no_items name }
{
    ComponentPart {
        name,
        ports: Items::new(alloc),
        vars: Items::new(alloc),
        slots: Items::new(alloc),
        channels: Items::new(alloc),
        handlers: Items::new(alloc),
    }
}

/// One more declaration of a component type.
pub fn add_item(component: &mut ComponentPart, item: ItemPart) -> Result<(), AllocError>
    ensures { IfOk result (λ _. component.new ≡ spec.add_item component.old item) }
{
    match item {
        ItemPart::Port(port) => component.ports.push(port),
        ItemPart::Var(var) => component.vars.push(var),
        ItemPart::Slot(slot) => component.slots.push(slot),
        ItemPart::Channel(channel) => component.channels.push(channel),
        ItemPart::Handler(handler) => component.handlers.push(handler),
    }
}

/// A file without declarations.
pub fn no_decls(alloc: Global, two: bool, end: u32) -> Parts
    ensures { result ≡ spec.no_decls two end }
{
    Parts {
        version: if two { 2 } else { 1 },
        events: Items::new(alloc),
        ports: Items::new(alloc),
        components: Items::new(alloc),
        roots: Items::new(alloc),
        end,
    }
}

/// One more declaration of a file.
pub fn add_decl(parts: &mut Parts, decl: DeclPart) -> Result<(), AllocError>
    ensures { IfOk result (λ _. parts.new ≡ spec.add_decl parts.old decl) }
{
    match decl {
        DeclPart::Event(event) => parts.events.push(event),
        DeclPart::Port(port) => parts.ports.push(port),
        DeclPart::Component(component) => parts.components.push(component),
        DeclPart::Root(root) => parts.roots.push(root),
    }
}
