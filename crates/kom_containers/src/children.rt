ghost use Rattle.std.specs.Prelude.{◌≡◌, IfOk};
ghost use Rattle.std.specs.List.{filter_map};
ghost use Rattle.std.specs.Option.{option_map};
ghost use Rattle.kom_rules.specs.Fitting.{child_number as number_of_child};
ghost use Rattle.kom_rules.specs.Spaces.{component_number as number_of_component, component_names};
ghost use Rattle.kom_lookups.specs.Numbered.{HasNumbers};
ghost use Rattle.kom_containers.specs.Nested.{children_table};

use kom_lookups::numbers_of;
use kom_names::Numbers;
use kom_system::{ComponentPart, Parts, SlotPart};
use kom_tables::component_number;
use sqlite_items::Items;
use std::alloc::{AllocError, Global};

/// The number of the component type that a slot begins with.
fn child_number(numbers: &Numbers, parts: &Parts, slot: &SlotPart) -> Option<usize>
    requires { HasNumbers numbers.now (component_names parts.now) }
    ensures { result ≡ option_map (λ child. number_of_component parts.now child.kind) slot.now.child }
{
    match &slot.child {
        Some(child) => Some(component_number(numbers, parts, &child.kind)),
        None => None,
    }
}

/// The numbers of the component types in the slots of one. The error is want of memory, as in the
/// calls below.
fn children_in(
    alloc: Global,
    numbers: &Numbers,
    parts: &Parts,
    part: &ComponentPart,
) -> Result<Items<usize>, AllocError>
    requires { HasNumbers numbers.now (component_names parts.now) }
    ensures { IfOk result (λ list. list ≡ filter_map (number_of_child parts.now) part.now.slots) }
{
    let mut list = Items::new(alloc);
    for slot in part.slots.as_slice() {
        if let Some(number) = child_number(numbers, parts, slot) {
            list.push(number)?;
        }
    }
    Ok(list)
}

/// The numbers of the component types in the slots of each, and none for the number behind the
/// last.
pub fn children_of(alloc: Global, parts: &Parts) -> Result<Items<Items<usize>>, AllocError>
    ensures { IfOk result (λ table. table ≡ children_table parts.now) }
{
    let numbers = numbers_of(alloc, parts.components.as_slice())?;
    let mut table = Items::new(alloc);
    for part in parts.components.as_slice() {
        table.push(children_in(alloc, &numbers, parts, part)?)?;
    }
    table.push(Items::new(alloc))?;
    Ok(table)
}
