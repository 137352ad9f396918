ghost use Rattle.std.specs.Prelude.{◌≡◌, ℕ, List, [], ◌∷◌, ◌++◌, Option, Some, None, OnOk, bytes_eq, if◌then◌else◌};
ghost use Rattle.kom_base.specs.Lists.{either};
ghost use Rattle.kom_scenario.specs.Names.{found};

use indexmap::IndexMap;
use std::alloc::{AllocError, Global};
use std::marker::Model;

/// Names with the numbers that they stand for. Contracts see them as a list of both, in order.
#[derive(Drop)]
pub struct Names<'t> {
    map: IndexMap<&'t [u8], usize>,
}

impl<'t> Model for Names<'t> {
    ghost use Rattle.std.specs.Prelude.{ℕ, List};
    ghost use Rattle.kom_scenario.specs.Names.{listed};

    ghost Value = { List (List ℕ × ℕ) };

    ghost view = { λ n. listed n.map.entries };

    ghost invariant = { λ n. Unit {0} };
}

impl<'t> Names<'t> {
    /// No names. It takes no memory.
    pub fn new(alloc: Global) -> Names<'t>
        ensures { result ≡ [] }
    {
        Names {
            map: IndexMap::new(alloc),
        }
    }

    /// The number that a name stands for.
    pub fn find(&self, name: &[u8]) -> Option<usize>
        ensures { result ≡ found self.now name.now }
    {
        self.map.get(name).copied()
    }

    /// Adds a name with its number, unless the name is there. After want of memory nothing is
    /// said of the names, which are dropped then.
    pub fn add(&mut self, name: &'t [u8], number: usize) -> Result<(), AllocError>
        ensures { OnOk result ((q : List ℕ) → found self.new q ≡ either (found self.old q) (if bytes_eq q name.now then Some number else None)) }
    {
        if !self.map.contains_key(name) {
            self.map.insert(name, number)?;
        }
        Ok(())
    }
}
