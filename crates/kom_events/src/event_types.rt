ghost use Rattle.std.specs.Prelude.{◌≡◌, ℕ, ◌<◌, ◌≤◌, ◌^◌, length, slice_get, slice_index_or, is_some, true, false, Some, IfOk, IfSome, IfNone};
ghost use Rattle.std.specs.Option.{option_map_or};
ghost use Rattle.kom_events.specs.Kin.{ancestors, kin, is_on_cycle};

use crate::port_types::Kinds;
use kom_base::Copied;
use sqlite_items::{Items, at};
use std::alloc::{AllocError, Global};
use std::marker::Model;

/// The row of one event type. Types are named by their place in the list of rows, from 0.
#[derive(Clone, Copy, Debug, PartialEq, Eq)]
pub struct EventRow {
    /// The type that this one extends, if any.
    pub parent: Option<u16>,

    /// How many attributes the type adds to those that it inherits.
    pub own: u8,
}

impl Copied for EventRow {
    fn copy(&self, _alloc: Global) -> Result<EventRow, AllocError> {
        Ok(*self)
    }
}

/// The event types of a system. Contracts see the list of their rows.
#[derive(Debug, Drop)]
pub struct EventTypes {
    rows: Items<EventRow>,

    /// For each type itself, its parent, the parent of that and so on.
    ancestors: Items<Kinds>,
}

impl Model for EventTypes {
    ghost use Rattle.std.specs.Prelude.{◌≡◌, ℕ, List, [], length, slice_index_or};
    ghost use Rattle.kom_events.specs.declared.event_types.EventRow.{EventRow};
    ghost use Rattle.kom_events.specs.Kin.{ancestors as ancestor_list};

    ghost Value = { List EventRow };

    ghost view = { λ t. t.rows };

    ghost invariant = { λ t. (a : ℕ) → slice_index_or t.ancestors a [] ≡ ancestor_list (length t.rows) t.rows a };
}

impl EventTypes {
    /// The event types with these rows. It takes memory in the order of the sum of all lengths of
    /// lines of ancestors.
    pub fn build(alloc: Global, rows: &[EventRow]) -> Result<EventTypes, AllocError>
        requires { length rows.now ≤ 2 ^ 16 }
        ensures { IfOk result (λ types. types ≡ rows.now) }
    {
        let mut ancestors = Items::new(alloc);
        for a in 0..rows.len() {
            ancestors.push(ancestors_of(alloc, rows, a as u16)?)?;
        }
        Ok(EventTypes {
            rows: Items::from_slice(alloc, rows)?,
            ancestors,
        })
    }

    /// How many event types there are.
    pub fn len(&self) -> usize
        ensures { result ≡ length self.now }
    {
        self.rows.len()
    }

    /// The row of a type. It takes no memory.
    pub fn row(&self, kind: u16) -> &EventRow
        requires { kind < length self.now }
        ensures { slice_get self.now kind ≡ Some result.now }
    {
        &self.rows.as_slice()[kind as usize]
    }

    /// Whether `a` is `b` or a descendant of `b`; a number that no type has is kin to none. It
    /// takes no memory and follows no parents.
    pub fn is_kin(&self, a: u16, b: u16) -> bool
        ensures { result ≡ kin self.now a b }
    {
        match self.ancestors.get(a as usize) {
            Some(list) => list.as_slice().contains(&b),
            None => false,
        }
    }
}

/// The ancestors of a type, itself the first.
fn ancestors_of(alloc: Global, rows: &[EventRow], a: u16) -> Result<Kinds, AllocError>
    ensures { IfOk result (λ list. list ≡ ancestors (length rows.now) rows.now a) }
{
    let mut list = Items::new(alloc);
    let mut next = Some(a);
    for _ in 0..rows.len() {
        let Some(kind) = next else { break };
        let Some(row) = at(rows, kind as usize) else {
            break;
        };
        list.push(kind)?;
        next = row.parent;
    }
    Ok(list)
}

/// The first type that is a proper ancestor of itself; `None` exactly where there is none. It
/// takes no memory.
pub fn parent_cycle(rows: &[EventRow]) -> Option<u16>
    ensures on_cycle { IfSome result (λ a. is_on_cycle rows.now a ≡ true) }
    ensures first { IfSome result (λ a. (b : ℕ) → b < a → is_on_cycle rows.now b ≡ false) }
    ensures none { IfNone result ((a : ℕ) → is_on_cycle rows.now a ≡ false) }
{
    for (a, row) in rows.iter().enumerate() {
        let found = ancestor_numbered(rows, row.parent, a);
        if found.is_some() {
            return found;
        }
    }
    None
}

/// The number `b` where it is `from` or an ancestor of it.
fn ancestor_numbered(rows: &[EventRow], from: Option<u16>, b: usize) -> Option<u16>
    ensures found { is_some result ≡ option_map_or (λ a. kin rows.now a b) from false }
    ensures number { IfSome result (λ a. a ≡ b) }
{
    let mut next = from;
    for _ in 0..rows.len() {
        let Some(kind) = next else {
            return None;
        };
        let Some(row) = at(rows, kind as usize) else {
            return None;
        };
        if kind as usize == b {
            return Some(kind);
        }
        next = row.parent;
    }
    None
}
