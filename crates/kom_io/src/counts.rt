ghost use Rattle.std.specs.Prelude.{◌≡◌, ◌≢◌, ◌+◌, ◌<◌, ◌≤◌, ◌++◌, [], ◌∷◌, ℕ, List, Some, None, IfSome, IfOk, OnOk, min, length, slice_get};
ghost use Rattle.kom_io.specs.Faults.{Rose, RisesOnlyAt};
ghost use Rattle.kom_io.specs.Names.{place_of, stands_at, count_at, first_count_of};

use crate::words::Words;
use std::alloc::{AllocError, Global};

/// Names with a count of faults each. A name that stands twice has its first count; one that
/// does not stand here has the last `u64`.
#[derive(Drop)]
pub struct Counts {
    pub names: Words,
    pub faults: Vec<u64>,
}

impl Counts {
    /// No names.
    pub fn new(alloc: Global) -> Counts
        ensures names { result.names ≡ [] }
        ensures faults { result.faults.items ≡ [] }
    {
        Counts {
            names: Words::new(alloc),
            faults: Vec::new(alloc),
        }
    }

    /// These names, without faults.
    pub fn of_words(alloc: Global, words: &Words) -> Result<Counts, AllocError>
        ensures { IfOk result (λ c. (n : List ℕ) → count_at c.names c.faults.items n ≡ first_count_of words.now n) }
    {
        let mut counts = Counts::new(alloc);
        for i in 0..words.len() {
            if let Some(word) = words.at(i) {
                counts.add(word)?;
            }
        }
        Ok(counts)
    }

    /// Adds a name without faults at the end.
    pub fn add(&mut self, name: &str) -> Result<(), AllocError>
        ensures names { OnOk result (self.new.names ≡ self.old.names ++ name.now ∷ []) }
        ensures faults { OnOk result (self.new.faults.items ≡ self.old.faults.items ++ 0 ∷ []) }
    {
        self.names.push(name)?;
        self.faults.push(0)?;
        Ok(())
    }

    /// The count of a name.
    pub fn of(&self, name: &str) -> u64
        ensures { result ≡ count_at self.now.names self.now.faults.items name.now }
    {
        match place_of(&self.names, name) {
            None => u64::MAX,
            Some(place) => self.faults.get(place).copied().unwrap_or(u64::MAX),
        }
    }

    /// Counts a fault of the name at a place.
    pub fn raise(&mut self, place: usize)
        ensures names { self.new.names ≡ self.old.names }
        ensures rose { IfSome (slice_get self.old.names place) (λ name.
            Rose (count_at self.old.names self.old.faults.items name) (count_at self.old.names self.new.faults.items name)) }
        ensures only { IfSome (slice_get self.old.names place) (λ name.
            RisesOnlyAt name (count_at self.old.names self.old.faults.items) (count_at self.old.names self.new.faults.items)) }
    {
        if let Some(name) = self.names.at(place) {
            if let Some(first) = place_of(&self.names, name) {
                raise_at(&mut self.faults, first);
            }
        }
    }
}

/// Adds one to the count at a place, up to the last `u64`.
fn raise_at(faults: &mut Vec<u64>, place: usize)
    ensures there { (n : ℕ) → slice_get faults.old.items place ≡ Some n → slice_get faults.new.items place ≡ Some (min (n + 1) u64.MAX) }
    ensures fits { (n : ℕ) → slice_get faults.old.items place ≡ Some n → n ≤ u64.MAX }
    ensures absent { slice_get faults.old.items place ≡ None → faults.new.items ≡ faults.old.items }
    ensures others { (k : ℕ) → k ≢ place → slice_get faults.new.items k ≡ slice_get faults.old.items k }
{
    if place < faults.len() {
        faults[place] = faults[place].saturating_add(1);
    }
}

/// The first place at which a name stands.
pub fn place_of(names: &Words, name: &str) -> Option<usize>
    ensures place { result ≡ place_of names.now name.now }
    ensures there { IfSome result (λ i. slice_get names.now i ≡ Some name.now) }
{
    for i in 0..names.len() {
        if stands_at(names, i, name) {
            return Some(i);
        }
    }
    None
}

/// Whether the name stands at this place.
fn stands_at(names: &Words, i: usize, name: &str) -> bool
    ensures { result ≡ stands_at names.now i name.now }
{
    match names.at(i) {
        None => false,
        Some(word) => word == name,
    }
}
