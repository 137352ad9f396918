ghost use Rattle.std.specs.Prelude.{◌≡◌, ℕ, List, [], Some, None, bytes_eq, if◌then◌else◌, OnOk};
ghost use Rattle.kom_base.specs.Lists.{either};
ghost use Rattle.kom_names.specs.Found.{place_in};

use indexmap::IndexMap;
use std::alloc::{AllocError, Global};
use std::marker::Model;

/// Names with the number that each was added with first. A name is found in constant time.
///
/// Contracts see the list of the names, each with that number.
#[derive(Drop)]
pub struct Numbers {
    numbers: IndexMap<Vec<u8>, usize>,
}

impl Model for Numbers {
    ghost use Rattle.std.specs.Prelude.{List, ℕ, map};

    ghost Value = { List (List ℕ × ℕ) };

    ghost view = { λ t. map (λ e. (e.0.items, e.1)) t.numbers.entries };
}

impl Numbers {
    /// No names. It takes no memory.
    pub fn new(alloc: Global) -> Numbers
        ensures { result ≡ [] }
    {
        Numbers {
            numbers: IndexMap::new(alloc),
        }
    }

    /// The number that a name was added with first; `None` exactly where it was not added. It takes
    /// no memory.
    pub fn number(&self, name: &[u8]) -> Option<usize>
        ensures { result ≡ place_in self.now name.now }
    {
        self.numbers.get(name).copied()
    }

    /// Adds a name with a number; a name that is there keeps its number.
    pub fn add(&mut self, alloc: Global, name: &[u8], number: usize) -> Result<(), AllocError>
        ensures { OnOk result ((q : List ℕ) → place_in self.new q ≡ either (place_in self.old q) (if bytes_eq q name.now then Some number else None)) }
    {
        if self.number(name).is_some() {
            return Ok(());
        }
        let key = Vec::from_slice(alloc, name)?;
        self.numbers.insert(key, number)?;
        Ok(())
    }
}
