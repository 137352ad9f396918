ghost use Rattle.std.specs.Prelude.{◌≡◌, ℕ, [], take, slice_index_or, IfOk};
ghost use Rattle.kom_rules.specs.Spaces.{attribute_names};
ghost use Rattle.kom_rules.specs.Names.{first_place, is_among};
ghost use Rattle.kom_rules.specs.Declaring.{has_repeat as repeats, has_wrong_attributes, wrong_attributes as wrong_ones};

use crate::passed::Steps;
use kom_lang::Name;
use kom_lookups::numbers_of;
use kom_system::Parts;
use kom_tables::{BUILT_IN_EVENTS, own_attributes, parents_of};
use kom_walks::{at_if, earlier};
use sqlite_items::at;
use std::alloc::{AllocError, Global};

/// An event type has no more attributes.
const MAX_ATTRIBUTES: usize = 8;

/// Whether a name is among some names.
fn is_in(names: &[Name], name: &[u8]) -> bool
    ensures { result ≡ is_among names.now name.now }
{
    names.iter().any(|n| name == n.bytes())
}

/// Whether two of some names are equal. Time is in the order of the square of their count.
fn has_repeat(names: &[Name]) -> bool
    ensures { result ≡ repeats names.now }
{
    for (i, name) in names.iter().enumerate() {
        if is_in(&names[i + 1..], name.bytes()) {
            return true;
        }
    }
    false
}

/// Whether there are too many names or two that are equal.
fn are_wrong(names: &[Name]) -> bool
    ensures { result ≡ has_wrong_attributes names.now }
{
    names.len() > MAX_ATTRIBUTES || has_repeat(names)
}

/// Whether a type has too many attributes or two of one name.
fn is_wrong(steps: &Steps, kind: usize) -> bool
    ensures { result ≡ has_wrong_attributes (slice_index_or steps.now.names kind []) }
{
    match at(steps.names.as_slice(), kind) {
        Some(names) => are_wrong(names.as_slice()),
        None => false,
    }
}

/// The first event type with more than 8 attributes or with two of one name, inherited ones
/// included, at its name in its declaration; `None` exactly where there is none. Where types are
/// their own ancestors, a line of ancestors goes on for as many steps as there are types. Time is in
/// the order of the text, times the logarithm of the count of event types. The error is want of
/// memory.
pub fn wrong_attributes(alloc: Global, parts: &Parts) -> Result<Option<u32>, AllocError>
    ensures { IfOk result (λ first. first ≡ first_place (wrong_ones parts.now)) }
{
    let steps = steps_of(alloc, parts)?;
    let mut first = None;
    for (number, part) in parts.events.as_slice().iter().enumerate() {
        let wrong = is_wrong(&steps, BUILT_IN_EVENTS + number);
        first = earlier(first, at_if(wrong, part.name.at));
    }
    Ok(first)
}

/// As many steps from event types to their parents as there are event types.
fn steps_of(alloc: Global, parts: &Parts) -> Result<Steps, AllocError>
    ensures { IfOk result (λ steps. (k : ℕ) → slice_index_or steps.names k [] ≡ take 9 (attribute_names parts.now k)) }
{
    let declared = numbers_of(alloc, parts.events.as_slice())?;
    let parents = parents_of(alloc, &declared, parts)?;
    let own = own_attributes(alloc, parts)?;
    let steps = Steps::all(alloc, parents.as_slice(), own.as_slice())?;
    Ok(steps)
}
