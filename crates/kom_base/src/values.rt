ghost use Rattle.std.specs.Prelude.{◌≡◌, [], ◌∷◌, ◌++◌, ◌<◌, IfOk, OnOk, OnErr, length, slice_get, slice_set};

use std::alloc::{AllocError, Global};
use std::marker::Model;

/// A list of values: the attributes of an event, the variables of a component or the arguments of
/// a creation. Contracts see it as the list of its numbers.
#[derive(Debug, Drop)]
pub struct Values {
    items: Vec<i64>,
}

impl Model for Values {
    ghost use Rattle.std.specs.Prelude.{List, ℤ};

    ghost Value = { List ℤ };

    ghost view = { λ v. v.items.items };
}

impl Values {
    /// The empty list. It takes no memory.
    pub fn new(alloc: Global) -> Values
        ensures { result ≡ [] }
    {
        Values {
            items: Vec::new(alloc),
        }
    }

    /// Adds a value at the end; on want of memory the list is as before.
    pub fn push(&mut self, v: i64) -> Result<(), AllocError>
        ensures ok { OnOk result (self.new ≡ self.old ++ v ∷ []) }
        ensures err { OnErr result (self.new ≡ self.old) }
    {
        self.items.push(v)?;
        Ok(())
    }

    /// An equal list in memory of its own.
    pub fn copy(&self, alloc: Global) -> Result<Values, AllocError>
        ensures { IfOk result (λ c. c ≡ self.now) }
    {
        let items = Vec::from_slice(alloc, self.items.as_slice())?;
        Ok(Values { items })
    }

    /// How many values there are.
    pub fn len(&self) -> usize
        ensures { result ≡ length self.now }
    {
        self.items.len()
    }

    /// The value at a place, from 0; `None` exactly where the place is not below the length.
    pub fn at(&self, i: usize) -> Option<i64>
        ensures { result ≡ slice_get self.now i }
    {
        self.items.get(i).copied()
    }

    /// Puts a value at a place. It takes no memory.
    pub fn set(&mut self, i: usize, v: i64)
        requires { i < length self.old }
        ensures { self.new ≡ slice_set self.old i v }
    {
        self.items[i] = v;
    }
}

/// An event: the number of its type and the values of its attributes, inherited ones first.
#[derive(Debug, Drop)]
pub struct Event {
    pub kind: u16,
    pub values: Values,
}

impl Event {
    /// An equal event in memory of its own.
    pub fn copy(&self, alloc: Global) -> Result<Event, AllocError>
        ensures { IfOk result (λ c. c ≡ self.now) }
    {
        Ok(Event {
            kind: self.kind,
            values: self.values.copy(alloc)?,
        })
    }
}
