ghost use Rattle.std.specs.Prelude.{◌≡◌, IfOk};
ghost use Rattle.std.specs.Option.{option_and_then};
ghost use Rattle.kom_ancestors.specs.Far.{to, joined_to, LeadsFar};

use sqlite_items::{Items, at};
use std::alloc::{AllocError, Global};

/// Where a table leads from a number, if there is one.
pub fn led_from(table: &[Option<usize>], next: Option<usize>) -> Option<usize>
    ensures { result ≡ option_and_then (to table.now) next }
{
    match next {
        Some(number) => match at(table, number) {
            Some(more) => *more,
            None => None,
        },
        None => None,
    }
}

/// The table of the steps of one table and then of those of another. The error is want of memory, as
/// below.
pub fn joined(
    alloc: Global,
    first: &[Option<usize>],
    after: &[Option<usize>],
) -> Result<Items<Option<usize>>, AllocError>
    ensures { IfOk result (λ both. both ≡ joined_to first.now after.now) }
{
    let mut both = Items::new(alloc);
    for next in first {
        both.push(led_from(after, *next))?;
    }
    Ok(both)
}

/// The table of at least as many steps at once as there are entries, made by doubling.
pub fn far_steps(
    alloc: Global,
    parents: &[Option<usize>],
) -> Result<Items<Option<usize>>, AllocError>
    ensures { IfOk result (λ table. LeadsFar table parents.now) }
{
    let mut table = Items::from_slice(alloc, parents)?;
    let mut steps = 1usize;
    'far: while steps < parents.len() {
        table = joined(alloc, table.as_slice(), table.as_slice())?;
        steps *= 2;
    }
    Ok(table)
}
