ghost use Rattle.std.specs.Prelude.{◌≡◌, ◌<◌, ℕ, false, length, slice_index_or, IfOk};
ghost use Rattle.kom_events.specs.Kin.{is_on_cycle};
ghost use Rattle.kom_rules.specs.Names.{first_place};
ghost use Rattle.kom_rules.specs.Spaces.{event_rows};
ghost use Rattle.kom_rules.specs.Declaring.{own_ancestors as self_ancestors};

use crate::marks::{is_marked, reached};
use crate::steps::far_steps;
use kom_lookups::numbers_of;
use kom_system::Parts;
use kom_tables::{BUILT_IN_EVENTS, parents_of};
use kom_walks::{at_if, earlier};
use sqlite_items::Items;
use std::alloc::{AllocError, Global};

/// Marks the event types that are their own ancestors: those to which as many steps lead from
/// anywhere as there are event types.
fn on_cycles(alloc: Global, parts: &Parts) -> Result<Items<bool>, AllocError>
    ensures { IfOk result (λ marks. (k : ℕ) → k < length (event_rows parts.now) → slice_index_or marks k false ≡ is_on_cycle (event_rows parts.now) k) }
{
    let declared = numbers_of(alloc, parts.events.as_slice())?;
    let parents = parents_of(alloc, &declared, parts)?;
    let far = far_steps(alloc, parents.as_slice())?;
    let marks = reached(alloc, far.as_slice())?;
    Ok(marks)
}

/// The first event type that is its own ancestor, at its name in its declaration; `None` exactly
/// where there is none. Time is in the order of the text, times the logarithm of the count of event
/// types. The error is want of memory.
pub fn own_ancestors(alloc: Global, parts: &Parts) -> Result<Option<u32>, AllocError>
    ensures { IfOk result (λ first. first ≡ first_place (self_ancestors parts.now)) }
{
    let marks = on_cycles(alloc, parts)?;
    let mut first = None;
    for (number, part) in parts.events.as_slice().iter().enumerate() {
        let own = is_marked(&marks, BUILT_IN_EVENTS + number);
        first = earlier(first, at_if(own, part.name.at));
    }
    Ok(first)
}
