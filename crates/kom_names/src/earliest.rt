ghost use Rattle.std.specs.Prelude.{◌≡◌, ℕ, List, [], Some, bytes_eq, if◌then◌else◌, OnOk};
ghost use Rattle.kom_rules.specs.Names.{earlier};
ghost use Rattle.kom_names.specs.Found.{place_in};

use indexmap::IndexMap;
use std::alloc::{AllocError, Global};
use std::marker::Model;

/// For names the least place that was noted with them. A name is found in constant time.
///
/// Contracts see the list of the names, each with that place.
#[derive(Drop)]
pub struct Earliest {
    places: IndexMap<Vec<u8>, u32>,
}

impl Model for Earliest {
    ghost use Rattle.std.specs.Prelude.{List, ℕ, map};

    ghost Value = { List (List ℕ × ℕ) };

    ghost view = { λ t. map (λ e. (e.0.items, e.1)) t.places.entries };
}

impl Earliest {
    /// Nothing noted. It takes no memory.
    pub fn new(alloc: Global) -> Earliest
        ensures { result ≡ [] }
    {
        Earliest {
            places: IndexMap::new(alloc),
        }
    }

    /// The least place that was noted with a name; `None` exactly where none was. It takes no memory.
    pub fn place(&self, name: &[u8]) -> Option<u32>
        ensures { result ≡ place_in self.now name.now }
    {
        self.places.get(name).copied()
    }

    /// Notes a place with a name.
    pub fn note(&mut self, alloc: Global, name: &[u8], at: u32) -> Result<(), AllocError>
        ensures { OnOk result ((q : List ℕ) → place_in self.new q ≡ (if bytes_eq q name.now then earlier (place_in self.old q) (Some at) else place_in self.old q)) }
    {
        let least = match self.place(name) {
            Some(before) => before.min(at),
            None => at,
        };
        let key = Vec::from_slice(alloc, name)?;
        self.places.insert(key, least)?;
        Ok(())
    }
}
