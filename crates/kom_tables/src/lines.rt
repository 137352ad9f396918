ghost use Rattle.std.specs.Prelude.{◌≡◌, length, IfOk};
ghost use Rattle.std.specs.Option.{option_map};
ghost use Rattle.kom_rules.specs.Names.{names_of};
ghost use Rattle.kom_rules.specs.Spaces.{event_spots, event_rows, event_number as number_of_event};
ghost use Rattle.kom_lookups.specs.Numbered.{HasNumbers};
ghost use Rattle.kom_tables.specs.Ancestry.{parents_in, line_up, AreLines};

use crate::numbers::event_number;
use kom_names::Numbers;
use kom_system::{EventPart, Parts};
use sqlite_items::{Items, at};
use std::alloc::{AllocError, Global};

/// The number of the parent of an event type.
fn parent_of(declared: &Numbers, parts: &Parts, part: &EventPart) -> Option<usize>
    requires { HasNumbers declared.now (names_of (event_spots parts.now)) }
    ensures { result ≡ option_map (number_of_event parts.now) part.now.parent }
{
    match &part.parent {
        Some(spot) => Some(event_number(declared, parts, spot)),
        None => None,
    }
}

/// The number of each event type's parent. The error is want of memory, as in all calls below.
pub fn parents_of(
    alloc: Global,
    declared: &Numbers,
    parts: &Parts,
) -> Result<Items<Option<usize>>, AllocError>
    requires { HasNumbers declared.now (names_of (event_spots parts.now)) }
    ensures { IfOk result (λ list. list ≡ parents_in (event_rows parts.now)) }
{
    let mut list = Items::from_slice(alloc, &[None, None, None, None])?;
    for part in parts.events.as_slice() {
        list.push(parent_of(declared, parts, part))?;
    }
    Ok(list)
}

/// An event type itself, its parent, the parent of that and so on, at most as many as there are
/// event types.
fn line_of(
    alloc: Global,
    parents: &[Option<usize>],
    kind: usize,
) -> Result<Items<usize>, AllocError>
    ensures { IfOk result (λ line. line ≡ line_up (length parents.now) parents.now kind) }
{
    let mut line = Items::new(alloc);
    let mut next = Some(kind);
    for _ in 0..parents.len() {
        let Some(number) = next else { break };
        let Some(parent) = at(parents, number) else {
            break;
        };
        line.push(number)?;
        next = *parent;
    }
    Ok(line)
}

/// The line of each event type.
pub fn lines_of(alloc: Global, parents: &[Option<usize>]) -> Result<Items<Items<usize>>, AllocError>
    ensures { IfOk result (λ lines. AreLines lines parents.now) }
{
    let mut lines = Items::new(alloc);
    for kind in 0..parents.len() {
        lines.push(line_of(alloc, parents, kind)?)?;
    }
    Ok(lines)
}
