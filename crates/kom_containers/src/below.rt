ghost use Rattle.std.specs.Prelude.{◌≡◌, ℕ, ◌||◌, ◌==◌, false, map, slice_index_or, IfOk};
ghost use Rattle.std.specs.List.{list_any};
ghost use Rattle.kom_containers.specs.Nested.{is_within};

use sqlite_items::Items;
use std::alloc::{AllocError, Global};

/// What a table says of a number, and `false` where it has none.
pub fn is_marked(table: &Items<bool>, number: usize) -> bool
    ensures { result ≡ slice_index_or table.now number false }
{
    table.get(number).copied().unwrap_or(false)
}

/// Whether a number is among some children, or below one of them by a table.
fn is_among_or_below(children: &[usize], number: usize, below: &Items<bool>) -> bool
    ensures { result ≡ list_any (λ c. c == number || slice_index_or below.now c false) children.now }
{
    children
        .iter()
        .any(|c| *c == number || is_marked(below, *c))
}

/// For each number whether another is below it, at most one level further down than by a table.
fn one_level_further(
    alloc: Global,
    children: &[Items<usize>],
    number: usize,
    below: &Items<bool>,
) -> Result<Items<bool>, AllocError>
    ensures { IfOk result (λ table. table ≡ map (list_any (λ c. c == number || slice_index_or below.now c false)) children.now) }
{
    let mut table = Items::new(alloc);
    for list in children {
        table.push(is_among_or_below(list.as_slice(), number, below))?;
    }
    Ok(table)
}

/// For each number whether another is in its tree below the root, at most so many levels down. Time
/// is in the order of the levels and the length of all lists of children together. The error is want
/// of memory.
pub fn holders_of(
    alloc: Global,
    children: &[Items<usize>],
    levels: usize,
    number: usize,
) -> Result<Items<bool>, AllocError>
    ensures { IfOk result (λ table. (k : ℕ) → slice_index_or table k false ≡ is_within levels children.now number k) }
{
    let mut table = Items::new(alloc);
    for _ in 0..levels {
        table = one_level_further(alloc, children, number, &table)?;
    }
    Ok(table)
}
