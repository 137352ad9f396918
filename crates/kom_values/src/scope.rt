ghost use Rattle.std.specs.Prelude.{◌≡◌, [], ◌∷◌, ◌++◌, ◌<◌, OnOk, OnErr, length, take, slice_get, slice_set};

use std::alloc::{AllocError, Global};
use std::marker::Model;

/// The values of the names in scope: the parameters of the handler first, then those of `let`, the
/// outermost first. Contracts see it as the list of the values.
#[derive(Debug, Drop)]
pub struct Scope {
    values: Vec<i64>,
}

impl Model for Scope {
    ghost use Rattle.std.specs.Prelude.{List, ℤ};

    ghost Value = { List ℤ };

    ghost view = { λ s. s.values.items };
}

impl Scope {
    /// The scope without names. It takes no memory.
    pub fn new(alloc: Global) -> Scope
        ensures { result ≡ [] }
    {
        Scope {
            values: Vec::new(alloc),
        }
    }

    /// How many names are in scope.
    pub fn len(&self) -> usize
        ensures { result ≡ length self.now }
    {
        self.values.len()
    }

    /// The value of a name, from 0; `None` exactly where there are not so many names.
    pub fn at(&self, i: usize) -> Option<i64>
        ensures { result ≡ slice_get self.now i }
    {
        self.values.get(i).copied()
    }

    /// One name more, with this value. On want of memory the scope is as before.
    pub fn push(&mut self, value: i64) -> Result<(), AllocError>
        ensures ok { OnOk result (self.new ≡ self.old ++ value ∷ []) }
        ensures err { OnErr result (self.new ≡ self.old) }
    {
        self.values.push(value)?;
        Ok(())
    }

    /// Gives a name another value. It takes no memory.
    pub fn set(&mut self, i: usize, value: i64)
        requires { i < length self.old }
        ensures { self.new ≡ slice_set self.old i value }
    {
        self.values[i] = value;
    }

    /// Keeps the first `n` names. It takes no memory, and keeps what it has for the next names.
    pub fn truncate(&mut self, n: usize)
        ensures { self.new ≡ take n self.old }
    {
        self.values.truncate(n);
    }
}
