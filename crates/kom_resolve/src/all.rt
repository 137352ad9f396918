ghost use Rattle.std.specs.Prelude.{◌≡◌, map, IfOk};

use sqlite_items::Items;
use std::alloc::{AllocError, Global};

/// What gives for a part of a syntax tree what it stands for.
pub trait Resolves<T, U> {
    /// What it stands for.

    ghost value: { Self → T → U };

    /// The same. The error is want of memory.
    fn resolve(&self, alloc: Global, part: &T) -> Result<U, AllocError>
        ensures { IfOk result (λ v. v ≡ value self.now part.now) };
}

/// What some parts stand for, in their order. The error is want of memory.
pub fn resolve_all<T, U: Drop, S: Resolves<T, U>>(
    says: &S,
    alloc: Global,
    parts: &[T],
) -> Result<Items<U>, AllocError>
    ensures { IfOk result (λ vs. vs ≡ map (S.value says.now) parts.now) }
{
    let mut values = Items::new(alloc);
    for part in parts {
        values.push(says.resolve(alloc, part)?)?;
    }
    Ok(values)
}
