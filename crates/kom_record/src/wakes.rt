ghost use Rattle.std.specs.Prelude.{◌≡◌, ◌<◌, [], ◌∷◌, ◌++◌, All, IfOk, OnOk, OnErr, length, slice_get};
ghost use Rattle.std.specs.Option.{option_copied};

use kom_base::Comp;
use std::alloc::{AllocError, Global};
use std::marker::Model;

/// The components that an entry made ready, each once, in rising order. Contracts see the list of
/// their numbers.
#[derive(Debug, Drop)]
pub struct Wakes {
    comps: Vec<Comp>,
}

impl Model for Wakes {
    ghost use Rattle.std.specs.Prelude.{List, ℕ};

    ghost Value = { List ℕ };

    ghost view = { λ w. w.comps.items };
}

impl Wakes {
    /// The empty list. It takes no memory.
    pub fn new(alloc: Global) -> Wakes
        ensures { result ≡ [] }
    {
        Wakes {
            comps: Vec::new(alloc),
        }
    }

    /// The components of a list that has each once, in rising order. It takes no memory.
    pub fn of(comps: Vec<Comp>) -> Wakes
        ensures { result ≡ comps.items }
    {
        Wakes { comps }
    }

    /// Adds a component whose number is greater than all so far. The error is want of memory, and
    /// the list is then as before.
    pub fn push(&mut self, c: Comp) -> Result<(), AllocError>
        requires { All (λ d. d < c) self.old }
        ensures ok { OnOk result (self.new ≡ self.old ++ c ∷ []) }
        ensures err { OnErr result (self.new ≡ self.old) }
    {
        self.comps.push(c)?;
        Ok(())
    }

    /// An equal list in memory of its own. The error is want of memory.
    pub fn copy(&self, alloc: Global) -> Result<Wakes, AllocError>
        ensures { IfOk result (λ c. c ≡ self.now) }
    {
        let comps = Vec::from_slice(alloc, self.comps.as_slice())?;
        Ok(Wakes { comps })
    }

    /// How many components there are.
    pub fn len(&self) -> usize
        ensures { result ≡ length self.now }
    {
        self.comps.len()
    }

    /// The component at a place, from 0; `None` exactly where the place is not below the length.
    pub fn at(&self, i: usize) -> Option<&Comp>
        ensures { option_copied result ≡ slice_get self.now i }
    {
        sqlite_items::at(self.comps.as_slice(), i)
    }
}
