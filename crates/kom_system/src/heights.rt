ghost use Rattle.std.specs.Prelude.{◌≡◌, ℕ, ◌+◌, ◌<◌, ◌≤◌, length, map, slice_index_or, IfOk};
ghost use Rattle.kom_lang.specs.Declarations.{child_height, greatest, height};

use kom_lang::{Kind, SlotDecl, SlotDecls};
use sqlite_items::Items;
use std::alloc::{AllocError, Global};

/// For each component type the number of levels of its tree, where no type contains itself.
pub fn heights(alloc: Global, kinds: &Items<Kind>) -> Result<Items<u8>, AllocError>
    requires { length kinds.now ≤ 128 }
    ensures { IfOk result (λ table. (k : ℕ) → slice_index_or table k 0 ≡ height (length kinds.now) kinds.now k) }
{
    let mut table = Items::new(alloc);
    for _ in 0..kinds.len() {
        table = one_level_more(alloc, kinds, &table)?;
    }
    Ok(table)
}

/// The heights of trees with at most one level more than those whose heights are given.
fn one_level_more(
    alloc: Global,
    kinds: &Items<Kind>,
    below: &Items<u8>,
) -> Result<Items<u8>, AllocError>
    requires { (k : ℕ) → slice_index_or below.now k 0 < 255 }
    ensures { IfOk result (λ table. table ≡ map (λ kind. 1 + greatest (map (child_height (λ c. slice_index_or below.now c 0)) kind.slots)) kinds.now) }
{
    let mut table = Items::new(alloc);
    for kind in kinds.as_slice() {
        table.push(1 + highest_child(&kind.slots, below))?;
    }
    Ok(table)
}

/// The greatest height of a component type in a slot, and 0 where there is none.
fn highest_child(slots: &SlotDecls, heights: &Items<u8>) -> u8
    requires { (k : ℕ) → slice_index_or heights.now k 0 < 255 }
    ensures greatest { result ≡ greatest (map (child_height (λ c. slice_index_or heights.now c 0)) slots.now) }
    ensures below { result < 255 }
{
    let mut highest = 0u8;
    for slot in slots.as_slice() {
        highest = highest.max(height_in(slot, heights));
    }
    highest
}

/// The height of the component type in a slot, and 0 where the slot is empty.
fn height_in(slot: &SlotDecl, heights: &Items<u8>) -> u8
    ensures { result ≡ child_height (λ c. slice_index_or heights.now c 0) slot.now }
{
    match &slot.child {
        Some(child) => height_at(heights, child.kind),
        None => 0,
    }
}

/// The height of a component type, and 0 where the table has none.
pub fn height_at(heights: &Items<u8>, kind: u16) -> u8
    ensures { result ≡ slice_index_or heights.now kind 0 }
{
    heights.get(kind as usize).copied().unwrap_or(0)
}
