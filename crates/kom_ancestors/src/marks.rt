ghost use Rattle.std.specs.Prelude.{◌≡◌, ◌<◌, ◌||◌, ℕ, false, length, slice_index_or, IfOk};
ghost use Rattle.std.specs.List.{list_any};
ghost use Rattle.kom_ancestors.specs.Far.{leads_to};

use sqlite_items::Items;
use std::alloc::{AllocError, Global};

/// Whether a number is marked.
pub fn is_marked(marks: &Items<bool>, number: usize) -> bool
    ensures { result ≡ slice_index_or marks.now number false }
{
    marks.get(number).copied().unwrap_or(false)
}

/// So many numbers without a mark. The error is want of memory, as below.
fn unmarked(alloc: Global, count: usize) -> Result<Items<bool>, AllocError>
    ensures count { IfOk result (λ marks. length marks ≡ count) }
    ensures none { IfOk result (λ marks. (b : ℕ) → b < count → slice_index_or marks b false ≡ false) }
{
    let mut marks = Items::new(alloc);
    for _ in 0..count {
        marks.push(false)?;
    }
    Ok(marks)
}

/// Marks where a step leads, unless it leads past all numbers.
fn mark(marks: &mut Items<bool>, next: Option<usize>)
    ensures count { length marks.new ≡ length marks.old }
    ensures marked { (b : ℕ) → b < length marks.old → slice_index_or marks.new b false ≡ slice_index_or marks.old b false || leads_to b next }
{
    if let Some(number) = next
        && number < marks.len()
    {
        marks.set(number, true);
    }
}

/// Marks the numbers to which the steps of a table lead.
pub fn reached(alloc: Global, table: &[Option<usize>]) -> Result<Items<bool>, AllocError>
    ensures { IfOk result (λ marks. (b : ℕ) → b < length table.now → slice_index_or marks b false ≡ list_any (leads_to b) table.now) }
{
    let mut marks = unmarked(alloc, table.len())?;
    for next in table {
        mark(&mut marks, *next);
    }
    Ok(marks)
}
