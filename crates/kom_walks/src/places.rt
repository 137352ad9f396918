ghost use Rattle.std.specs.Prelude.{◌≡◌, ℕ, List, IfOk};
ghost use Rattle.std.specs.List.{flat_map};
ghost use Rattle.kom_rules.specs.Names.{first_place, at_if as at_if_so, earlier as earlier_of};

use std::alloc::{AllocError, Global};

/// The lesser of two places, of which each may be missing.
pub fn earlier(a: Option<u32>, b: Option<u32>) -> Option<u32>
    ensures { result ≡ earlier_of a b }
{
    match (a, b) {
        (Some(a), Some(b)) => Some(a.min(b)),
        (Some(a), None) => Some(a),
        (None, b) => b,
    }
}

/// The place only where the test holds.
pub fn at_if(test: bool, at: u32) -> Option<u32>
    ensures { result ≡ first_place (at_if_so test at) }
{
    if test { Some(at) } else { None }
}

/// What says of each item of a list at which places something holds.
pub trait Of<T> {
    /// The places.

    ghost places: { Self → T → List ℕ };

    /// The first of them.
    fn first(&self, item: &T) -> Option<u32>
        ensures { result ≡ first_place (places self.now item.now) };
}

/// The first place of all items. It takes no memory.
pub fn first_of<T, S: Of<T>>(says: &S, items: &[T]) -> Option<u32>
    ensures { result ≡ first_place (flat_map (S.places says.now) items.now) }
{
    let mut first = None;
    for item in items {
        first = earlier(first, says.first(item));
    }
    first
}

/// What says the same where memory may be wanted for it.
pub trait Tries<T> {
    /// The places.

    ghost tried: { Self → T → List ℕ };

    /// The first of them. The error is want of memory.
    fn try_first(&self, alloc: Global, item: &T) -> Result<Option<u32>, AllocError>
        ensures { IfOk result (λ first. first ≡ first_place (tried self.now item.now)) };
}

/// The first place of all items. The error is want of memory.
pub fn try_first_of<T, S: Tries<T>>(
    says: &S,
    alloc: Global,
    items: &[T],
) -> Result<Option<u32>, AllocError>
    ensures { IfOk result (λ first. first ≡ first_place (flat_map (S.tried says.now) items.now)) }
{
    let mut first = None;
    for item in items {
        let now = says.try_first(alloc, item)?;
        first = earlier(first, now);
    }
    Ok(first)
}
