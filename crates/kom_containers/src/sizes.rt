ghost use Rattle.std.specs.Prelude.{◌≡◌, ℕ, ◌+◌, ◌<◌, ◌≤◌, [], length, min, map, slice_index_or, sum_by, IfOk};
ghost use Rattle.kom_lang.specs.Declarations.{greatest};
ghost use Rattle.kom_containers.specs.Nested.{levels_of, total_of};

use sqlite_items::{Items, at};
use std::alloc::{AllocError, Global};

/// Totals are counted no further than this.
pub const MOST: u32 = 1001;

/// What a table says of a number, and 0 where it has none.
pub fn height_at(table: &Items<u8>, number: usize) -> u8
    ensures { result ≡ slice_index_or table.now number 0 }
{
    table.get(number).copied().unwrap_or(0)
}

/// The same for a table of totals.
pub fn total_at(table: &Items<u32>, number: usize) -> u32
    ensures { result ≡ slice_index_or table.now number 0 }
{
    table.get(number).copied().unwrap_or(0)
}

/// The greatest height of some children, and 0 where there are none.
fn highest(children: &[usize], heights: &Items<u8>) -> u8
    requires { (k : ℕ) → slice_index_or heights.now k 0 < 255 }
    ensures greatest { result ≡ greatest (map (λ c. slice_index_or heights.now c 0) children.now) }
    ensures below { result < 255 }
{
    let mut highest = 0u8;
    for child in children {
        highest = highest.max(height_at(heights, *child));
    }
    highest
}

/// The heights of trees with at most one level more than those whose heights are given.
fn one_level_higher(
    alloc: Global,
    children: &[Items<usize>],
    heights: &Items<u8>,
) -> Result<Items<u8>, AllocError>
    requires { (k : ℕ) → slice_index_or heights.now k 0 < 255 }
    ensures { IfOk result (λ table. table ≡ map (λ below. 1 + greatest (map (λ c. slice_index_or heights.now c 0) below)) children.now) }
{
    let mut table = Items::new(alloc);
    for list in children {
        table.push(1 + highest(list.as_slice(), heights))?;
    }
    Ok(table)
}

/// For each number how many levels its tree has, of which no more than so many are counted. The
/// error is want of memory.
pub fn heights(
    alloc: Global,
    children: &[Items<usize>],
    levels: u8,
) -> Result<Items<u8>, AllocError>
    requires { levels < 255 }
    ensures { IfOk result (λ table. (k : ℕ) → slice_index_or table k 0 ≡ levels_of levels children.now k) }
{
    let mut table = Items::new(alloc);
    for _ in 0..levels {
        table = one_level_higher(alloc, children, &table)?;
    }
    Ok(table)
}

/// What a number of things and those below some children come to, counted no further than `MOST`.
fn together(own: usize, children: &[usize], totals: &Items<u32>) -> u32
    requires { (k : ℕ) → slice_index_or totals.now k 0 ≤ 1001 }
    ensures { result ≡ min (own + sum_by (λ c. slice_index_or totals.now c 0) children.now) 1001 }
{
    let mut total = own.min(1001) as u32;
    for child in children {
        total = (total + total_at(totals, *child)).min(MOST);
    }
    total
}

/// The totals of trees with at most one level more than those whose totals are given.
fn one_level_larger(
    alloc: Global,
    children: &[Items<usize>],
    own: &[usize],
    totals: &Items<u32>,
) -> Result<Items<u32>, AllocError>
    requires same { length own.now ≡ length children.now }
    requires most { (k : ℕ) → slice_index_or totals.now k 0 ≤ 1001 }
    ensures count { IfOk result (λ table. length table ≡ length children.now) }
    ensures each { IfOk result (λ table. (k : ℕ) → slice_index_or table k 0 ≡ min (slice_index_or own.now k 0 + sum_by (λ c. slice_index_or totals.now c 0) (slice_index_or children.now k [])) 1001) }
{
    let mut table = Items::new(alloc);
    for (k, list) in children.iter().enumerate() {
        table.push(together(own[k], list.as_slice(), totals))?;
    }
    Ok(table)
}

/// For each number what all in its tree add together, down to so many levels and counted no further
/// than `MOST`, where `own` has what each adds. The error is want of memory.
pub fn totals(
    alloc: Global,
    children: &[Items<usize>],
    own: &[usize],
    levels: u8,
) -> Result<Items<u32>, AllocError>
    requires { length own.now ≡ length children.now }
    ensures { IfOk result (λ table. (k : ℕ) → slice_index_or table k 0 ≡ min (total_of levels children.now own.now k) 1001) }
{
    let mut table = Items::new(alloc);
    for _ in 0..levels {
        table = one_level_larger(alloc, children, own, &table)?;
    }
    Ok(table)
}
