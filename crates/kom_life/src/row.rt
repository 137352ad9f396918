ghost use Rattle.std.specs.Prelude.{◌≡◌, ◌-◌, ◌<◌, max, false, true, [], ◌∷◌, ◌++◌, drop, slice_get, OnOk, OnErr};
ghost use Rattle.kom_index.specs.Stock.{items, spare};
ghost use Rattle.kom_life.specs.Rows.{blank, given, relieved, marked, revived, with_room};

use kom_index::Fifo;
use kom_record::Control;
use std::alloc::{AllocError, Global};

/// The control items that wait for an instance, whether it is there, and its two flags; room may
/// be reserved before it is there.
#[derive(Drop)]
pub struct Row {
    pub controls: Fifo<Control>,
    pub living: bool,
    pub active: bool,
    pub catches: bool,
}

impl Row {
    ghost use Rattle.kom_life.specs.Rows.{blank, given, relieved, marked, revived, with_room};

    /// The row of an instance that is not there. It takes no memory.
    pub fn blank(alloc: Global) -> Row
        ensures { result ≡ blank }
    {
        Row {
            controls: Fifo::new(alloc),
            living: false,
            active: false,
            catches: false,
        }
    }

    /// Makes room for `n` more items.
    pub fn reserve(&mut self, n: usize) -> Result<(), AllocError>
        ensures ok { OnOk result (self.new ≡ with_room self.old n) }
        ensures err { OnErr result (self.new ≡ self.old) }
    {
        self.controls.reserve(n)
    }

    /// Adds an item at the back. It takes no memory.
    pub fn put(&mut self, item: Control)
        requires { 0 < spare self.old.controls }
        ensures { self.new ≡ given item self.old }
    {
        self.controls.push(item);
    }

    /// Takes the first item, if there is one.
    pub fn take(&mut self) -> Option<Control>
        ensures item { result ≡ slice_get (items self.old.controls) 0 }
        ensures rest { self.new ≡ relieved self.old }
    {
        self.controls.pop()
    }

    /// Makes the instance be there, passive, with no item.
    pub fn revive(&mut self)
        ensures { self.new ≡ revived self.old }
    {
        self.controls.clear();
        self.living = true;
        self.active = false;
        self.catches = false;
    }

    /// Sets the two flags.
    pub fn set(&mut self, active: bool, catches: bool)
        ensures { self.new ≡ marked active catches self.old }
    {
        self.active = active;
        self.catches = catches;
    }
}
